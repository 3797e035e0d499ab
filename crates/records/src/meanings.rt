// What the numbers of records mean, and what refusals say.

ghost use Rattle.std.specs.Prelude.{◌≡◌};
ghost use Rattle.records.specs.Numbers.{number_of, words_of};
ghost use Rattle.records.specs.Meanings.{Reads, kind_of, form_of, target_of, has_body, has_branch, is_list};

use crate::kinds::{Form, Kind, Target, UnknownNumber};
use crate::refusals::Refusal;

// The kind that a number stands for.
impl TryFrom<u32> for Kind {
    type Error = UnknownNumber;

    ghost try_from_gives = { Reads kind_of };

    fn try_from(number: u32) -> Result<Kind, UnknownNumber> {
        match number {
            1 => Ok(Kind::Noop),
            2 => Ok(Kind::Var),
            3 => Ok(Kind::Expr),
            4 => Ok(Kind::FnCall),
            5 => Ok(Kind::Assignment),
            6 => Ok(Kind::Block),
            7 => Ok(Kind::TryCatch),
            8 => Ok(Kind::For),
            9 => Ok(Kind::If),
            10 => Ok(Kind::While),
            11 => Ok(Kind::Do),
            12 => Ok(Kind::BreakLoop),
            13 => Ok(Kind::Return),
            _ => Err(UnknownNumber(number)),
        }
    }
}

impl Kind {
    // Has it a body?
    pub(crate) fn has_body(self) -> bool
        ensures { result ≡ has_body self }
    {
        matches!(
            self,
            Kind::Block | Kind::TryCatch | Kind::For | Kind::If | Kind::While | Kind::Do
        )
    }

    // May it have a branch?
    pub(crate) fn has_branch(self) -> bool
        ensures { result ≡ has_branch self }
    {
        matches!(self, Kind::TryCatch | Kind::If)
    }
}

// The form that a number stands for.
impl TryFrom<u32> for Form {
    type Error = UnknownNumber;

    ghost try_from_gives = { Reads form_of };

    fn try_from(number: u32) -> Result<Form, UnknownNumber> {
        match number {
            1 => Ok(Form::Unit),
            2 => Ok(Form::True),
            3 => Ok(Form::Opaque),
            4 => Ok(Form::False),
            5 => Ok(Form::Name),
            6 => Ok(Form::AllOf),
            7 => Ok(Form::AnyOf),
            _ => Err(UnknownNumber(number)),
        }
    }
}

impl Form {
    // Is it a list of items?
    pub(crate) fn is_list(self) -> bool
        ensures { result ≡ is_list self }
    {
        matches!(self, Form::AllOf | Form::AnyOf)
    }
}

// The target that a number stands for.
impl TryFrom<u32> for Target {
    type Error = UnknownNumber;

    ghost try_from_gives = { Reads target_of };

    fn try_from(number: u32) -> Result<Target, UnknownNumber> {
        match number {
            1 => Ok(Target::Variable),
            2 => Ok(Target::Access),
            3 => Ok(Target::Other),
            _ => Err(UnknownNumber(number)),
        }
    }
}

impl Refusal {
    // The number that a refusal is known by. (A method: `u32::from(refusal)` would not say which number.)
    pub fn number(&self) -> u32
        ensures { result ≡ number_of self.now }
    {
        match self {
            Refusal::TooLarge => 10,
            Refusal::Malformed => 11,
            Refusal::LeftOut => 12,
            Refusal::TooDeep => 13,
            Refusal::BadReuse => 14,
            Refusal::OutsideLoop => 15,
            Refusal::EvalCall => 16,
            Refusal::UnknownExpression => 17,
            Refusal::SlotsFull => 21,
            Refusal::NoRoom => 22,
            Refusal::NoCodeRoom => 23,
            Refusal::SlotMemory => 24,
            Refusal::QuestionWaits => 31,
            Refusal::NoneWaits => 32,
            Refusal::Over => 33,
            Refusal::WrongCall => 34,
            Refusal::NotSettable => 35,
        }
    }

    // What a refusal means, in plain words.
    pub fn words(&self) -> &'static str
        ensures { result.now ≡ words_of self.now }
    {
        match self {
            Refusal::TooLarge => "too many records, too much text, or a slot limit out of range",
            Refusal::Malformed => "a field is missing or against the rules of records",
            Refusal::LeftOut => "a form of statement that is left out",
            Refusal::TooDeep => "statements nested more than 64 deep",
            Refusal::BadReuse =>
                "a reuse index that does not name the newest slot of its name in its block",
            Refusal::OutsideLoop => "a break or continue outside every loop",
            Refusal::EvalCall => "a call of eval",
            Refusal::UnknownExpression => "an expression that the writer does not know",
            Refusal::SlotsFull => "more slots than the slot limit allows",
            Refusal::NoRoom => "no room in an output, slot or break memory",
            Refusal::NoCodeRoom => "no room for the set code",
            Refusal::SlotMemory => "slot memory shorter than the deepest slot count",
            Refusal::QuestionWaits => "a question waits for its answer",
            Refusal::NoneWaits => "no question waits",
            Refusal::Over => "the run has ended or is stuck",
            Refusal::WrongCall => "an answer of the wrong kind, or a number out of range",
            Refusal::NotSettable => "a name that is not live or is constant",
        }
    }
}
