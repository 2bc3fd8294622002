ghost use Rattle.pattern.specs.Kinds.{Names};

// What a node of a pattern is.
#[derive(Clone, Copy, Debug, PartialEq, Eq)]
pub enum Kind {
    Variable,
    Operator,
}

// A number that names no kind.
#[derive(Clone, Copy, Debug, PartialEq, Eq)]
pub struct UnknownKind(pub usize);

impl TryFrom<usize> for Kind {
    type Error = UnknownKind;

    ghost try_from_gives = { Names };

    fn try_from(number: usize) -> Result<Self, UnknownKind> {
        match number {
            0 => Ok(Kind::Variable),
            1 => Ok(Kind::Operator),
            _ => Err(UnknownKind(number)),
        }
    }
}
