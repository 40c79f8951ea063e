//! The words by which a note says what is wrong with a row of a file.

ghost use Rattle.std.specs.Prelude.{◌≡◌, ℕ, List};

use action_dispatch::ActionKind;
use static_dictionary::TableKind;

/// What can be wrong with a row of a file.
pub trait RowKind: Copy {
    /// Its name, as a note says it.
    ghost name_of: { Self → List ℕ };

    /// The same name.
    fn name(self) -> &'static str
        ensures { result.now ≡ name_of self };
}

impl RowKind for TableKind {
    ghost use Rattle.dump_replay.specs.Statics.{table_kind_name};

    ghost name_of = { table_kind_name };

    fn name(self) -> &'static str {
        match self {
            TableKind::Header => "Header",
            TableKind::Fields => "Fields",
            TableKind::NotUtf8 => "NotUtf8",
            TableKind::NotANumber => "NotANumber",
            TableKind::Odd => "Odd",
            TableKind::Repeated => "Repeated",
        }
    }
}

impl RowKind for ActionKind {
    ghost use Rattle.dump_replay.specs.Answering.{action_kind_name};

    ghost name_of = { action_kind_name };

    fn name(self) -> &'static str {
        match self {
            ActionKind::Header => "Header",
            ActionKind::Fields => "Fields",
            ActionKind::NotUtf8 => "NotUtf8",
            ActionKind::Repeated => "Repeated",
        }
    }
}
