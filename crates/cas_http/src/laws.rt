//! Laws of what is read. The functions do nothing, and their contracts are the laws.

ghost use Rattle.std.specs.Prelude.{◌≡◌, ◌≢◌, ◌≤◌, ◌++◌, ℕ, List, Option, Some, length, take};
ghost use Rattle.std.specs.List.{AllByRecursion};
ghost use Rattle.std.specs.Str.{IsUtf8};
ghost use Rattle.serde_json.specs.Read.{read};
ghost use Rattle.cas_change.specs.Program.{IsProgramLength};
ghost use Rattle.cas_change.specs.declared.program.Clause.{Clause};
ghost use Rattle.cas_change_text.specs.Ranges.{ClauseFits};
ghost use Rattle.httparse.specs.Grammar.{RequestHead, ReadsRequest};
ghost use Rattle.cas_http.specs.Heads.{head_of, IsFront};
ghost use Rattle.cas_http.specs.Requests.{spelled_at, BeginsWith};
ghost use Rattle.cas_http.specs.Programs.{program_of_body};
ghost use Rattle.cas_http.specs.ProgramJson.{program_data};
ghost use Rattle.cas_http.specs.declared.head.Front.{Front};
ghost use Rattle.cas_http.specs.declared.request.Spelled.{Spelled};

use crate::head::{MOST_FIELDS, MOST_HEAD};

/// What is told of the front of an input stays, whatever bytes follow, unless its head was not whole yet.
///
/// So it does not matter after how many bytes a head is looked for.
pub fn what_is_told_of_a_front_stays()
    ensures { (bytes more : List ℕ) (front : Front) → IsFront bytes front → front ≢ Front.Open
        → IsFront (bytes ++ more) front }
{}

/// The head that an input begins with tells the request, or that more bytes have to come.
pub fn a_head_tells_its_request()
    ensures { (bytes : List ℕ) (told : Option Spelled) (h : RequestHead) (rest : List ℕ)
        → BeginsWith bytes told → ReadsRequest (take MOST_HEAD bytes) h rest
        → length h.fields ≤ MOST_FIELDS → told ≡ spelled_at (Front.Whole (head_of h)) bytes }
{}

/// A request that an input begins with stays the same, whatever bytes follow.
pub fn a_request_stays()
    ensures { (bytes more : List ℕ) (told : Spelled) → BeginsWith bytes (Some told)
        → BeginsWith (bytes ++ more) (Some told) }
{}

/// Each program is read from its JSON, however that is laid out.
pub fn each_program_is_read_from_its_json()
    ensures { (clauses : List Clause) (body : List ℕ) → IsProgramLength (length clauses)
        → AllByRecursion ClauseFits clauses → IsUtf8 body → read body ≡ Some (program_data clauses)
        → program_of_body body ≡ Some clauses }
{}
