ghost use Rattle.std.specs.Prelude.{◌≡◌};

use crate::parts::TyId;
use std::marker::Model;

/// A step from a place to a part of it.
#[derive(Clone, Copy, Debug, PartialEq, Eq)]
pub enum Step {
    /// An element of an array or of an object, from 0.
    Index(u32),
    /// A field of a struct, from 0.
    Field(u32),
    /// A member of a union, from 0.
    Member(u32),
}

/// A type at an offset in bytes.
#[derive(Clone, Copy, Debug, PartialEq, Eq)]
pub struct Place {
    pub ty: TyId,
    pub offset: u32,
}

/// Steps from an object or a type to one of its parts, seen in contracts as their list.
#[derive(Debug, Drop)]
pub struct Path {
    steps: Vec<Step>,
}

impl Model for Path {
    ghost use Rattle.std.specs.Prelude.{List};
    ghost use Rattle.c_types.specs.declared.path.Step.{Step};

    ghost Value = { List Step };

    ghost view = { λ p. p.steps.items };
}

impl Path {
    pub fn from_vec(steps: Vec<Step>) -> Path
        ensures { result ≡ steps.items }
    {
        Path { steps }
    }

    pub fn into_vec(self) -> Vec<Step>
        ensures { result.items ≡ self }
    {
        let Path { steps } = self;
        steps
    }

    pub fn as_slice(&self) -> &[Step]
        ensures { result.now ≡ self.now }
    {
        self.steps.as_slice()
    }
}
