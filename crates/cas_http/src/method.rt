//! What is done to a register: its methods, and the program that each runs.

ghost use Rattle.std.specs.Prelude.{◌≡◌, ◌∷◌, [], Some, IfOk};
ghost use Rattle.cas_http.specs.Methods.{method_named, program_asked};

use crate::program::read_program;
use cas_change::{Act, Clause, Guard, Program};
use std::alloc::{AllocError, Global};

/// What is done to a register.
#[derive(Clone, Copy, Debug, PartialEq, Eq)]
pub enum Method {
    /// It is read.
    Get,
    /// The program of the body is run.
    Post,
    /// It is emptied.
    Delete,
}

impl Method {
    /// The program that is run: `always keep` for a GET, `always clear` for a DELETE, and that of the body for a POST.
    ///
    /// `Ok(None)` comes exactly for a POST whose body spells no program. Only memory can fail.
    pub fn program(self, alloc: Global, body: &[u8]) -> Result<Option<Program>, AllocError>
        ensures { IfOk result (λ program. program ≡ program_asked self body.now) }
    {
        match self {
            Method::Get => always(alloc, Act::Keep),
            Method::Post => read_program(alloc, body),
            Method::Delete => always(alloc, Act::Clear),
        }
    }
}

/// The program that does this to every state.
fn always(alloc: Global, act: Act) -> Result<Option<Program>, AllocError>
    ensures { IfOk result (λ program. program
        ≡ Some (record { guard = Guard.Always; act = act } ∷ [])) }
{
    let mut clauses = Vec::new(alloc);
    clauses.push(Clause {
        guard: Guard::Always,
        act,
    })?;
    Ok(Program::new(clauses).ok())
}

/// The method of this name, if the store has it.
pub(crate) fn method_named(name: &str) -> Option<Method>
    ensures { result ≡ method_named name.now }
{
    match name {
        "GET" => Some(Method::Get),
        "POST" => Some(Method::Post),
        "DELETE" => Some(Method::Delete),
        _ => None,
    }
}
