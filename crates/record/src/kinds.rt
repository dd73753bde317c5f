// The kinds of records by name (document 01, "Sort records and the store", "Term records" and "Questions"; document 02, A.8), and
// the operations that a term record's number names; operators.rt has the operators of an Op. `kind as usize` is the number that
// stands in a record, and `try_from` goes back.
ghost use Rattle.record.specs.Kinds.{SortDecodes, TermDecodes, BinderDecodes, AsDecodes, ParamDecodes, QuestionDecodes};

// A number that none of a kind's names has.
#[derive(Clone, Copy, Debug, PartialEq, Eq)]
pub struct UnknownKind(pub usize);

// The kinds of sorts, in the order of the reference's enum Sort.
#[derive(Clone, Copy, Debug, PartialEq, Eq)]
pub enum SortKind {
    Function,
    Atom,
    Var,
    Bool,
    Int,
    Real,
    String,
    RegLan,
    Array,
    BitVec,
    ParamBitVec,
    Datatype,
    Par,
    Type,
    Set,
    Tuple,
}

impl TryFrom<usize> for SortKind {
    type Error = UnknownKind;

    ghost try_from_gives = { SortDecodes };

    // The kind with this number, or UnknownKind where there is none.
    fn try_from(number: usize) -> Result<Self, UnknownKind> {
        match number {
            0 => Ok(SortKind::Function),
            1 => Ok(SortKind::Atom),
            2 => Ok(SortKind::Var),
            3 => Ok(SortKind::Bool),
            4 => Ok(SortKind::Int),
            5 => Ok(SortKind::Real),
            6 => Ok(SortKind::String),
            7 => Ok(SortKind::RegLan),
            8 => Ok(SortKind::Array),
            9 => Ok(SortKind::BitVec),
            10 => Ok(SortKind::ParamBitVec),
            11 => Ok(SortKind::Datatype),
            12 => Ok(SortKind::Par),
            13 => Ok(SortKind::Type),
            14 => Ok(SortKind::Set),
            15 => Ok(SortKind::Tuple),
            _ => Err(UnknownKind(number)),
        }
    }
}

// The kinds of terms: five of constants, then the others.
#[derive(Clone, Copy, Debug, PartialEq, Eq)]
pub enum TermKind {
    Integer,
    Real,
    String,
    RegLan,
    BitVector,
    Var,
    App,
    Op,
    Binder,
    Let,
    Match,
    ParamOp,
    AsOp,
}

impl TryFrom<usize> for TermKind {
    type Error = UnknownKind;

    ghost try_from_gives = { TermDecodes };

    // The kind with this number, or UnknownKind where there is none.
    fn try_from(number: usize) -> Result<Self, UnknownKind> {
        match number {
            0 => Ok(TermKind::Integer),
            1 => Ok(TermKind::Real),
            2 => Ok(TermKind::String),
            3 => Ok(TermKind::RegLan),
            4 => Ok(TermKind::BitVector),
            5 => Ok(TermKind::Var),
            6 => Ok(TermKind::App),
            7 => Ok(TermKind::Op),
            8 => Ok(TermKind::Binder),
            9 => Ok(TermKind::Let),
            10 => Ok(TermKind::Match),
            11 => Ok(TermKind::ParamOp),
            12 => Ok(TermKind::AsOp),
            _ => Err(UnknownKind(number)),
        }
    }
}

// The binders.
#[derive(Clone, Copy, Debug, PartialEq, Eq)]
pub enum Binder {
    Forall,
    Exists,
    Choice,
    Lambda,
}

impl TryFrom<usize> for Binder {
    type Error = UnknownKind;

    ghost try_from_gives = { BinderDecodes };

    // The one with this number, or UnknownKind where there is none.
    fn try_from(number: usize) -> Result<Self, UnknownKind> {
        match number {
            0 => Ok(Binder::Forall),
            1 => Ok(Binder::Exists),
            2 => Ok(Binder::Choice),
            3 => Ok(Binder::Lambda),
            _ => Err(UnknownKind(number)),
        }
    }
}

// The operators that a sort is written beside.
#[derive(Clone, Copy, Debug, PartialEq, Eq)]
pub enum AsOp {
    Const,
    SetEmpty,
    SetUniverse,
}

impl TryFrom<usize> for AsOp {
    type Error = UnknownKind;

    ghost try_from_gives = { AsDecodes };

    // The one with this number, or UnknownKind where there is none.
    fn try_from(number: usize) -> Result<Self, UnknownKind> {
        match number {
            0 => Ok(AsOp::Const),
            1 => Ok(AsOp::SetEmpty),
            2 => Ok(AsOp::SetUniverse),
            _ => Err(UnknownKind(number)),
        }
    }
}

// The operators with indices, in the order of the reference's enum ParamOperator.
#[derive(Clone, Copy, Debug, PartialEq, Eq)]
pub enum ParamOp {
    Extract,
    BitOf,
    IntOf,
    ZeroExtend,
    SignExtend,
    RotateLeft,
    RotateRight,
    Repeat,
    BvConst,
    IntToBv,
    RePower,
    ReLoop,
}

impl TryFrom<usize> for ParamOp {
    type Error = UnknownKind;

    ghost try_from_gives = { ParamDecodes };

    // The one with this number, or UnknownKind where there is none.
    fn try_from(number: usize) -> Result<Self, UnknownKind> {
        match number {
            0 => Ok(ParamOp::Extract),
            1 => Ok(ParamOp::BitOf),
            2 => Ok(ParamOp::IntOf),
            3 => Ok(ParamOp::ZeroExtend),
            4 => Ok(ParamOp::SignExtend),
            5 => Ok(ParamOp::RotateLeft),
            6 => Ok(ParamOp::RotateRight),
            7 => Ok(ParamOp::Repeat),
            8 => Ok(ParamOp::BvConst),
            9 => Ok(ParamOp::IntToBv),
            10 => Ok(ParamOp::RePower),
            11 => Ok(ParamOp::ReLoop),
            _ => Err(UnknownKind(number)),
        }
    }
}

// The kinds of questions; Continue is document 02's, A.8.
#[derive(Clone, Copy, Debug, PartialEq, Eq)]
pub enum QuestionKind {
    Compatible,
    Match,
    Apply,
    Continue,
}

impl TryFrom<usize> for QuestionKind {
    type Error = UnknownKind;

    ghost try_from_gives = { QuestionDecodes };

    // The kind with this number, or UnknownKind where there is none.
    fn try_from(number: usize) -> Result<Self, UnknownKind> {
        match number {
            0 => Ok(QuestionKind::Compatible),
            1 => Ok(QuestionKind::Match),
            2 => Ok(QuestionKind::Apply),
            3 => Ok(QuestionKind::Continue),
            _ => Err(UnknownKind(number)),
        }
    }
}
