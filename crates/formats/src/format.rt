//! What the files of one kind of domain hold.
ghost use Rattle.std.specs.Prelude.{◌↔◌, ℕ};
ghost use Rattle.files.specs.Parts.{Converts, ValidParts};
ghost use Rattle.files.specs.Contents.{File};
ghost use Rattle.files.specs.declared.kind.Kind.{Kind};

use files::kind::Kind;
use files::record::Record;

/// A kind of file, what its records stand for, and the limits of the domains that it tells of.
/// The two laws: a record and what it stands for are made of each other, and a domain is within its limits exactly when its parts can stand in a file.
pub trait Format {
    type Action: Record + Drop;

    type Goal: Record + Drop;

    /// The kind of file stands twice: a constant for code, and a ghost member, equal to it, for clauses.
    const KIND: Kind;

    ghost KIND: { Kind };

    // the actions and the goals that a domain of so many fluents or places may have
    ghost action_in: { ℕ → Self.Action → Type 0 };

    ghost goal_in: { ℕ → Self.Goal → Type 0 };

    ghost limits: { File Self.Action Self.Goal → Type 0 };

    ghost converts: { Converts KIND Self.Action.made Self.Action.written Self.Goal.made Self.Goal.written action_in goal_in };

    ghost same_limits: { (f : File Self.Action Self.Goal) → limits f ↔ ValidParts KIND Self.Action.made Self.Action.written Self.Goal.made Self.Goal.written action_in goal_in f };
}
