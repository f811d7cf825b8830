//! Which rule of a legal record is broken, and where.

ghost use Rattle.std.specs.Prelude.{◌≡◌, List, [], ◌∷◌, reverse, IfOk, OnOk, OnErr};
ghost use Rattle.cas_audit.specs.Auditing.{IsVerdict, RulesAreLegal, BrokenRulesAreOne, VerdictsAreOne, VerdictsStay};
ghost use Rattle.cas_audit.specs.Keeping.{LegalGoesOn};
ghost use Rattle.cas_audit.specs.Tables.{AreTables, IsAudit};
ghost use Rattle.cas_audit.specs.Watching.{number_of, IsFirstOf, TellsWhileLegal};
ghost use Rattle.cas_record.specs.declared.mark.Mark.{Mark};

use crate::tables::Tables;
use cas_record::Mark;
use std::alloc::{AllocError, Global};
use std::marker::Model;

/// The first rule of a legal record that a record breaks.
#[derive(Clone, Copy, Debug, PartialEq, Eq)]
pub struct Broken {
    /// The number of the rule, from 1 to 9.
    pub rule: u8,
    /// How many marks the shortest front of the record has that is not legal.
    pub at: u32,
}

/// A rule of a legal record.
#[derive(Clone, Copy)]
enum Rule {
    /// Calls are numbered and marked once.
    Numbered,
    /// A change that was answered Done stands.
    DoneStands,
    /// A refused change was never proposed, an unsettled one was.
    RefusedNever,
    /// A change that was answered Done stands after all that was settled when its call began.
    AfterSeen,
    /// What was settled stays settled, in its place.
    OnlyGrows,
    /// An acknowledgment has its votes.
    HasVotes,
    /// Floors are tombstones, but for those that open a history.
    Floors,
    /// A shortfall of confirmations is explained by harmed frames.
    ShortHarmed,
}

impl Rule {
    /// The number of the rule in the list of rules. That what is settled was begun, rule 6, is never the first that is broken.
    fn number(self) -> u8
        ensures { result ≡ number_of self }
    {
        match self {
            Rule::Numbered => 1,
            Rule::DoneStands => 2,
            Rule::RefusedNever => 3,
            Rule::AfterSeen => 4,
            Rule::OnlyGrows => 5,
            Rule::HasVotes => 7,
            Rule::Floors => 8,
            Rule::ShortHarmed => 9,
        }
    }
}

/// The first rule that one mark more breaks.
fn first_broken(tables: &Tables, marks: &[Mark], mark: &Mark) -> Result<Option<Rule>, AllocError>
    requires { IsAudit tables.now (reverse marks.now) }
    ensures { IfOk result (λ rule. IsFirstOf rule (mark.now ∷ reverse marks.now)) }
{
    if !tables.keeps_numbers(marks, mark)? {
        return Ok(Some(Rule::Numbered));
    }
    if !tables.keeps_standing(marks, mark)? {
        return Ok(Some(Rule::DoneStands));
    }
    if !tables.keeps_refusals(mark) {
        return Ok(Some(Rule::RefusedNever));
    }
    if !tables.keeps_real_time(marks, mark)? {
        return Ok(Some(Rule::AfterSeen));
    }
    if !tables.keeps_settled(mark)? {
        return Ok(Some(Rule::OnlyGrows));
    }
    if !tables.keeps_votes(mark)? {
        return Ok(Some(Rule::HasVotes));
    }
    if !tables.keeps_floors(mark)? {
        return Ok(Some(Rule::Floors));
    }
    if !tables.keeps_harms(mark) {
        return Ok(Some(Rule::ShortHarmed));
    }
    Ok(None)
}

/// An audit of a record that comes mark by mark. It is seen as the marks so far, the newest first.
#[derive(Drop)]
pub struct Auditor {
    marks: Vec<Mark>,
    tables: Tables,
    broken: Option<Broken>,
}

impl Model for Auditor {
    ghost use Rattle.std.specs.Prelude.{List, reverse};
    ghost use Rattle.cas_record.specs.declared.mark.Mark.{Mark};

    ghost Value = { List Mark };

    ghost view = { λ auditor. reverse auditor.marks.items };

    ghost use Rattle.cas_audit.specs.Auditing.{IsVerdict};
    ghost use Rattle.cas_audit.specs.Watching.{TellsWhileLegal};

    ghost invariant = { λ auditor. IsVerdict auditor.broken (reverse auditor.marks.items) × TellsWhileLegal auditor.broken auditor.tables (reverse auditor.marks.items) };
}

impl Auditor {
    /// The audit of no marks.
    pub fn new(alloc: Global) -> Auditor
        ensures { result ≡ [] }
    {
        Auditor {
            marks: Vec::new(alloc),
            tables: Tables::new(alloc),
            broken: None,
        }
    }

    /// Takes the next mark of the record, and answers the rule that the marks so far break first, and where: nothing where they are a
    /// legal record. Once a rule is broken each further mark is answered the same.
    ///
    /// After an `Err` all is as before. It comes where there is no memory, or where as many marks came as a `u32` counts.
    pub fn mark(&mut self, mark: Mark) -> Result<Option<Broken>, AllocError>
        ensures marks { OnOk result (self.new ≡ mark ∷ self.old) }
        ensures verdict { IfOk result (λ verdict. IsVerdict verdict (mark ∷ self.old)) }
        ensures err { OnErr result (self.new ≡ self.old) }
    {
        self.marks.reserve(1)?;
        if let Some(broken) = self.broken {
            self.marks.push_reserved(mark);
            return Ok(Some(broken));
        }
        let verdict = watch(&mut self.tables, &self.marks, &mark)?;
        self.broken = verdict;
        self.marks.push_reserved(mark);
        Ok(verdict)
    }

    /// What the marks so far break first, as the last of them was answered.
    pub fn verdict(&self) -> Option<Broken>
        ensures { IsVerdict result self.now }
    {
        self.broken
    }
}

/// What the marks, of which all but the newest are a legal record, break. Where they break nothing the tables are those of all of them
/// then, and else of all but the newest, as after an `Err`.
fn watch(tables: &mut Tables, marks: &[Mark], mark: &Mark) -> Result<Option<Broken>, AllocError>
    requires { IsAudit tables.old (reverse marks.now) }
    ensures verdict { IfOk result (λ verdict. IsVerdict verdict (mark.now ∷ reverse marks.now)) }
    ensures tables { IfOk result
        (λ verdict. TellsWhileLegal verdict tables.new (mark.now ∷ reverse marks.now)) }
    ensures err { OnErr result (AreTables tables.new (reverse marks.now)) }
{
    let Ok(at) = u32::try_from(marks.len() + 1) else {
        return Err(AllocError);
    };
    match first_broken(tables, marks, mark)? {
        Some(rule) => Ok(Some(Broken {
            rule: rule.number(),
            at,
        })),
        None => {
            tables.note(marks, mark)?;
            Ok(None)
        }
    }
}

/// The rules are those of a legal record.
pub fn rules_are_legal()
    ensures { RulesAreLegal }
{}

/// A record breaks one rule first.
pub fn broken_rules_are_one()
    ensures { BrokenRulesAreOne }
{}

/// What one mark more owes each rule, where the record before it is legal.
pub fn legal_goes_on()
    ensures { LegalGoesOn }
{}

/// An audit has one verdict.
pub fn verdicts_are_one()
    ensures { VerdictsAreOne }
{}

/// Once a rule is broken, each further mark has the same verdict.
pub fn verdicts_stay()
    ensures { VerdictsStay }
{}
