// The families of operators, and which of them answer without a look at the arguments' sorts.
ghost use Rattle.std.specs.Prelude.{◌≡◌};
ghost use Rattle.record.specs.Operators.{operator_number};
ghost use Rattle.infer_rules.specs.Family.{family_of};
ghost use Rattle.infer_operator.specs.Operators.{PlainFamilyIs};

use infer_rules::Family;
use record::kinds::SortKind;
use record::operators::Operator;

// A sort of this kind without parts, a vector of this width, a vector whose width an argument says, or none of these.
#[derive(Clone, Copy, Debug, PartialEq, Eq)]
pub enum Plain {
    Kind(SortKind),
    Width(usize),
    Written,
    Other,
}

// A match on an operator, by the names of each family.
macro_rules! family {
    ($op:ident; $($family:ident: $($operator:ident)*;)*) => {
        match $op {
            $($(Operator::$operator)|* => Family::$family,)*
        }
    };
}

// The family of an operator.
#[tactic(auto, unfolding(infer_rules::specs::Family::family_of, infer_rules::specs::Family::family_in, infer_rules::specs::Family::families))]
pub fn family(op: Operator) -> Family
    ensures { result ≡ family_of (operator_number op) }
{
    family! { op;
        Truth: True False Not Implies And Or Xor Equals Distinct LessThan GreaterThan LessEq GreaterEq IsInt IsPow2;
        Truth: StrLessThan StrLessEq PrefixOf SuffixOf Contains StrIsDigit StrInRe Cl Delete;
        Truth: BvULt BvULe BvUGt BvUGe BvSLt BvSLe BvSGt BvSGe SetMember SetSubset SetIsEmpty SetIsSingleton;
        Integer: IntDiv Mod ToInt Pow2 Log2 StrLen IndexOf IndexOfRe StrToCode StrToInt UBvToInt SBvToInt BvSize SetCard;
        Decimal: RealDiv ToReal RealPi Sqrt Exp Sin Cos Tan Csc Sec Cot Arcsin Arccos Arctan Arccsc Arcsec Arccot;
        Text: StrConcat CharAt Substring Replace ReplaceAll ReplaceRe ReplaceReAll StrFromCode StrFromInt;
        Regular: StrToRe ReNone ReAll ReAllChar ReConcat ReUnion ReIntersection ReKleeneClosure ReComplement ReDiff;
        Regular: ReKleeneCross ReOption ReRange ReFromAutomaton;
        Vector: BvNot BvNeg BvAnd BvOr BvAdd BvMul BvUDiv BvURem BvShl BvLShr BvNAnd BvNOr BvXor BvXNor;
        Vector: BvSub BvSDiv BvSRem BvSMod BvAShr;
        OneBit: BvComp;
        Bits: BvPBbTerm BvBbTerm;
        Constant: BvConst;
        Concat: BvConcat;
        First: Abs Store SetUnion SetInter SetMinus SetComplement RelTclosure;
        Second: Ite BvIte;
        Last: SetInsert;
        Sum: Add Sub Mult;
        Element: Select;
        RareList: RareList;
        Singleton: SetSingleton;
        Tuple: Tuple;
        UnitTuple: TupleUnit;
        Transpose: RelTranspose;
        Join: RelJoin;
        Product: RelProduct;
    }
}

// The family of the operator with this number in enum Operator; Truth for a number that is none's.
pub fn family_of(op: usize) -> Family
    ensures { result ≡ family_of op }
{
    Operator::try_from(op).map_or(Family::Truth, family)
}

// The sort that an operator of this family with n arguments has, whatever their sorts are; Written for the family that
// reads a constant, Other for those that look at the arguments' sorts.
#[tactic(auto, unfolding(infer_rules::specs::Inferred::operated_by, record::specs::Record::map_of, record::specs::Record::maps))]
pub fn plain_of(family: Family, n: usize) -> Plain
    ensures { PlainFamilyIs family n result }
{
    match family {
        Family::Truth => Plain::Kind(SortKind::Bool),
        Family::Integer => Plain::Kind(SortKind::Int),
        Family::Decimal => Plain::Kind(SortKind::Real),
        Family::Text => Plain::Kind(SortKind::String),
        Family::Regular => Plain::Kind(SortKind::RegLan),
        Family::OneBit => Plain::Width(1),
        Family::Bits => Plain::Width(n),
        Family::Constant => Plain::Written,
        _ => Plain::Other,
    }
}
