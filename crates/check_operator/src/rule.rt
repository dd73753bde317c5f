// The rules of the ranked operators, by families of ranks.
ghost use Rattle.std.specs.Prelude.{◌≡◌};
ghost use Rattle.record.specs.Operators.{operator_number};
ghost use Rattle.record.specs.declared.operators.Operator.{Operator};
ghost use Rattle.check_operator.specs.Rule.{rule_of, counts_for};
ghost use Rattle.check_operator.specs.Numbered.{arity_counts, rule_numbers, ruled_numbers, rule_within};

use super::sets::{SetRule, counts_of_sets};
use record::kinds::SortKind;
use record::operators::Operator;

// How many arguments a rule takes.
#[derive(Clone, Copy, Debug, PartialEq, Eq)]
pub enum Arity {
    Exactly(usize),
    AtLeast(usize),
}

impl Arity {
    // Whether n arguments are that many.
    pub fn allows(self, n: usize) -> bool
        ensures { result ≡ arity_counts self n }
    {
        match self {
            Arity::Exactly(many) => n == many,
            Arity::AtLeast(least) => least <= n,
        }
    }
}

// What arguments an operator takes and what sort it then has.
#[derive(Clone, Copy)]
pub enum Rule {
    // Two or more of the first kind; the second kind is the result's.
    All(SortKind, SortKind),
    // One of each of these kinds, in their order, at most three; the last kind is the result's.
    Fixed(&'static [SortKind], SortKind),
    // At least so many, one or two, each Int or Real; the result is of this kind, or Real if one of them is Real, else Int.
    Numbers(usize, Option<SortKind>),
    // Two or more of one sort; the result is Bool.
    Equal,
    // Bool A A gives A.
    Choose,
    // (Array X Y) X gives Y; (Array X Y) X Y gives (Array X Y).
    Select,
    Store,
    // So many vectors of one width, one or two at least; the result is of this kind (a vector has one bit), or of their sort.
    Vectors(Arity, Option<SortKind>),
    // Two vectors; the result is as wide as both.
    Concat,
    // Sets, tuples and relations.
    Sets(SetRule),
}

// The rule of an operator of Core, Ints, Reals, Reals_Ints or ArraysEx; None for one without ranks and for the other operators.
#[tactic(auto, unfolding(crate::specs::Rule::rule_of, crate::specs::Rule::rules_in, crate::specs::Rule::rules))]
pub fn rule_of_theory(op: Operator) -> Option<Rule>
    ensures { ruled_numbers result ≡ rule_within Operator.True Operator.Store (operator_number op) }
{
    use Operator::*;
    use SortKind::{Bool, Int, Real};
    match op {
        True | False => Some(Rule::Fixed(&[], Bool)),
        Not => Some(Rule::Fixed(&[Bool], Bool)),
        Implies | And | Or | Xor => Some(Rule::All(Bool, Bool)),
        Equals | Distinct => Some(Rule::Equal),
        Ite => Some(Rule::Choose),
        Add | Mult => Some(Rule::Numbers(2, None)),
        Sub => Some(Rule::Numbers(1, None)),
        IntDiv => Some(Rule::All(Int, Int)),
        RealDiv => Some(Rule::Numbers(2, Some(Real))),
        Mod => Some(Rule::Fixed(&[Int, Int], Int)),
        Abs => Some(Rule::Fixed(&[Int], Int)),
        LessThan | GreaterThan | LessEq | GreaterEq => Some(Rule::Numbers(2, Some(Bool))),
        ToReal => Some(Rule::Fixed(&[Int], Real)),
        ToInt => Some(Rule::Fixed(&[Real], Int)),
        IsInt => Some(Rule::Fixed(&[Real], Bool)),
        Select => Some(Rule::Select),
        Store => Some(Rule::Store),
        _ => None,
    }
}

// The rule of an operator of Strings; None for one without ranks and for the other operators.
#[tactic(auto, unfolding(crate::specs::Rule::rule_of, crate::specs::Rule::rules_in, crate::specs::Rule::rules))]
pub fn rule_of_text(op: Operator) -> Option<Rule>
    ensures { ruled_numbers result ≡ rule_within Operator.StrConcat Operator.ReFromAutomaton (operator_number op) }
{
    use Operator::*;
    use SortKind::{Bool, Int, RegLan, String};
    match op {
        StrConcat => Some(Rule::All(String, String)),
        StrLen | StrToCode | StrToInt => Some(Rule::Fixed(&[String], Int)),
        StrLessThan | StrLessEq => Some(Rule::All(String, Bool)),
        CharAt => Some(Rule::Fixed(&[String, Int], String)),
        Substring => Some(Rule::Fixed(&[String, Int, Int], String)),
        PrefixOf | SuffixOf | Contains => Some(Rule::Fixed(&[String, String], Bool)),
        IndexOf => Some(Rule::Fixed(&[String, String, Int], Int)),
        Replace | ReplaceAll => Some(Rule::Fixed(&[String, String, String], String)),
        ReplaceRe | ReplaceReAll => Some(Rule::Fixed(&[String, RegLan, String], String)),
        StrIsDigit => Some(Rule::Fixed(&[String], Bool)),
        StrFromCode | StrFromInt => Some(Rule::Fixed(&[Int], String)),
        StrToRe => Some(Rule::Fixed(&[String], RegLan)),
        StrInRe => Some(Rule::Fixed(&[String, RegLan], Bool)),
        ReNone | ReAll | ReAllChar => Some(Rule::Fixed(&[], RegLan)),
        ReConcat | ReUnion | ReIntersection | ReDiff => Some(Rule::All(RegLan, RegLan)),
        ReKleeneClosure | ReComplement | ReKleeneCross | ReOption => Some(Rule::Fixed(
            &[RegLan],
            RegLan,
        )),
        ReRange => Some(Rule::Fixed(&[String, String], RegLan)),
        _ => None,
    }
}

// The rule of an operator of FixedSizeBitVectors; None for one without ranks and for the other operators.
#[tactic(auto, unfolding(crate::specs::Rule::rule_of, crate::specs::Rule::rules_in, crate::specs::Rule::rules))]
pub fn rule_of_vectors(op: Operator) -> Option<Rule>
    ensures { ruled_numbers result ≡ rule_within Operator.BvNot Operator.Delete (operator_number op) }
{
    use Operator::*;
    match op {
        BvNot | BvNeg => Some(Rule::Vectors(Arity::Exactly(1), None)),
        BvAnd | BvOr | BvAdd | BvMul => Some(Rule::Vectors(Arity::AtLeast(2), None)),
        BvUDiv
        | BvURem
        | BvShl
        | BvLShr
        | BvNAnd
        | BvNOr
        | BvXor
        | BvXNor
        | BvSub
        | BvSDiv
        | BvSRem
        | BvSMod
        | BvAShr => Some(Rule::Vectors(Arity::Exactly(2), None)),
        BvULt | BvULe | BvUGt | BvUGe | BvSLt | BvSLe | BvSGt | BvSGe => {
            Some(Rule::Vectors(Arity::Exactly(2), Some(SortKind::Bool)))
        }
        BvConcat => Some(Rule::Concat),
        BvComp => Some(Rule::Vectors(Arity::Exactly(2), Some(SortKind::BitVec))),
        UBvToInt | SBvToInt => Some(Rule::Vectors(Arity::Exactly(1), Some(SortKind::Int))),
        _ => None,
    }
}

// The rule of an operator on sets, tuples and relations; None for the other operators.
#[tactic(auto, unfolding(crate::specs::Rule::rule_of, crate::specs::Rule::rules_in, crate::specs::Rule::rules))]
pub fn rule_of_sets(op: Operator) -> Option<Rule>
    ensures { ruled_numbers result ≡ rule_within Operator.SetUnion Operator.RelProduct (operator_number op) }
{
    use Operator::*;
    let rule = match op {
        SetUnion | SetInter | SetMinus => SetRule::Alike(2, None),
        SetMember => SetRule::Member,
        SetSubset => SetRule::Alike(2, Some(SortKind::Bool)),
        SetSingleton => SetRule::Singleton,
        SetIsEmpty | SetIsSingleton => SetRule::Alike(1, Some(SortKind::Bool)),
        SetCard => SetRule::Alike(1, Some(SortKind::Int)),
        SetInsert => SetRule::Insert,
        SetComplement => SetRule::Alike(1, None),
        Tuple => SetRule::Tuple,
        TupleUnit => SetRule::TupleUnit,
        RelTranspose => SetRule::Transpose,
        RelTclosure => SetRule::Closure,
        RelJoin => SetRule::Join,
        RelProduct => SetRule::Product,
        _ => return None,
    };
    Some(Rule::Sets(rule))
}

// The rule of an operator of FixedSizeBitVectors, or on sets, tuples and relations; None without ranks and for the other operators.
#[tactic(auto, unfolding(crate::specs::Rule::rule_of, crate::specs::Rule::rules_in, crate::specs::Rule::rules))]
pub fn rule_of_vectors_or_sets(op: Operator) -> Option<Rule>
    ensures { ruled_numbers result ≡ rule_within Operator.BvNot Operator.RelProduct (operator_number op) }
{
    rule_of_vectors(op).or_else(|| rule_of_sets(op))
}

// The rule of the operator with this number in enum Operator; None without ranks, and where no operator has the number.
#[tactic(auto, using(crate::proofs::RuleOfLaws::rule_past))]
pub fn rule_of(op: usize) -> Option<Rule>
    ensures { ruled_numbers result ≡ rule_of op }
{
    let op = Operator::try_from(op).ok()?;
    rule_of_theory(op)
        .or_else(|| rule_of_text(op))
        .or_else(|| rule_of_vectors_or_sets(op))
}

// Whether a rule has this count of arguments.
pub fn counts(rule: Rule, n: usize) -> bool
    ensures { result ≡ counts_for (rule_numbers rule) n }
{
    match rule {
        Rule::All(_, _) | Rule::Equal => 2 <= n,
        Rule::Fixed(kinds, _) => n == kinds.len(),
        Rule::Numbers(least, _) => least <= n,
        Rule::Choose | Rule::Store => n == 3,
        Rule::Select | Rule::Concat => n == 2,
        Rule::Vectors(arity, _) => arity.allows(n),
        Rule::Sets(rule) => counts_of_sets(rule, n),
    }
}
