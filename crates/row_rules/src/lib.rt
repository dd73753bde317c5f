// What a row says: a sort of the store, or why there is none.
#![tactic(auto)]

ghost use Rattle.std.specs.Prelude.{◌≡◌};
ghost use Rattle.row_rules.specs.declared.Cause.TheVariants.{Full as NoRoom};
ghost use Rattle.row_rules.specs.Verdict.{number_of};
ghost use Rattle.row_rules.specs.Number.{CauseFrom};

use store::Full;

// Why a row or an answer is refused; `number_of` of specs/Verdict.antt gives document 01's number of each.
#[derive(Clone, Copy, Debug, PartialEq, Eq)]
pub enum Cause {
    // A referenced term's same row is refused.
    Below = 20,
    // The Rust panics.
    Panics = 21,
    // The answer's width, list or tree is over its limit.
    Limit = 22,
    // The store cannot hold the answer's sorts.
    Full = 23,
    // The operator has no rank.
    NoRank = 24,
    // A wrong count of arguments, bindings or indices, or an index that is no integer constant or out of range.
    Count = 25,
    // An argument sort fits no rank, the head is no function, or the sort of Const is no Array, of SetEmpty or SetUniverse no Set.
    Misfit = 26,
    // The result keeps an unassigned parameter.
    Unassigned = 27,
    // A sort holds what it may not; or question 1 or 3 is outside matching's premise.
    Barred = 28,
    // No assignment that keeps the given pairs turns the pattern into the target.
    NoAssignment = 29,
}

// A row before it is coded: a number of the store, or a refusal.
pub type Row = Result<usize, Cause>;

// A number that is no cause's.
#[derive(Clone, Copy, Debug, PartialEq, Eq)]
pub struct UnknownCause(pub u32);

// A store without room refuses the answer.
impl From<Full> for Cause {
    ghost from_gives = { λ _ c. c ≡ NoRoom };

    fn from(_full: Full) -> Cause {
        Cause::Full
    }
}

// The number of a cause.
impl From<Cause> for u32 {
    ghost from_gives = { λ c n. n ≡ number_of c };

    fn from(cause: Cause) -> u32 {
        cause as u32
    }
}

// The cause with this number, 20 to 29; else the number itself.
impl TryFrom<u32> for Cause {
    type Error = UnknownCause;

    ghost try_from_gives = { CauseFrom };

    fn try_from(number: u32) -> Result<Cause, UnknownCause> {
        match number {
            20 => Ok(Cause::Below),
            21 => Ok(Cause::Panics),
            22 => Ok(Cause::Limit),
            23 => Ok(Cause::Full),
            24 => Ok(Cause::NoRank),
            25 => Ok(Cause::Count),
            26 => Ok(Cause::Misfit),
            27 => Ok(Cause::Unassigned),
            28 => Ok(Cause::Barred),
            29 => Ok(Cause::NoAssignment),
            _ => Err(UnknownCause(number)),
        }
    }
}
