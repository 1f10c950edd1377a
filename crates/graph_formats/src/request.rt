//! What is asked of the formats of links.
ghost use Rattle.std.specs.Prelude.{◌≡◌};
ghost use Rattle.graph_formats.specs.Assignments.{first_of, second_of};

use av_base::{FormatSet, NoMemory};

/// What the formats of two links have to do with each other.
#[derive(Clone, Copy, Debug, PartialEq, Eq)]
pub enum Relation {
    /// Both links have one format.
    Same {
        /// The first link's number, counted from 0.
        a: u32,
        /// The second link's number.
        b: u32,
    },
    /// The second link's format is the first's with an alpha plane.
    WithAlpha {
        /// The number of the link without the alpha plane.
        plain: u32,
        /// The number of the link with it.
        alpha: u32,
    },
}

impl Relation {
    /// The two links that the relation names.
    pub(crate) fn links(self) -> (u32, u32)
        ensures first { result.0 ≡ first_of self }
        ensures second { result.1 ≡ second_of self }
    {
        match self {
            Relation::Same { a, b } => (a, b),
            Relation::WithAlpha { plain, alpha } => (plain, alpha),
        }
    }
}

/// The formats that one end of a link can take.
#[derive(Clone, Copy, Debug, PartialEq, Eq)]
pub struct Wish {
    /// The link's number, counted from 0.
    pub link: u32,
    /// The formats.
    pub set: FormatSet,
}

/// Why no formats were chosen.
#[derive(Clone, Copy, Debug, PartialEq, Eq)]
pub enum FormatError {
    /// The links that relations join to this one have no formats that are as asked.
    NoCommonFormat {
        /// The lowest link of the first such part.
        link: u32,
    },
    /// Out of memory.
    NoMemory,
}

impl From<NoMemory> for FormatError {
    ghost use Rattle.std.specs.Prelude.{◌≡◌};
    ghost use Rattle.graph_formats.specs.declared.request.FormatError.TheVariants as error;

    ghost from_gives = { λ _ e. e ≡ error.NoMemory };

    fn from(_refused: NoMemory) -> FormatError {
        FormatError::NoMemory
    }
}
