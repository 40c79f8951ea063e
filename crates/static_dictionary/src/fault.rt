// Why a file gives no table.
use nbfx_values::Memory;

/// What is wrong with a row of a file of static strings.
#[derive(Clone, Copy, Debug, PartialEq, Eq)]
pub enum TableKind {
    /// The first row isn't the fields `id` and `string`, or there is none.
    Header,
    /// The row hasn't exactly two fields.
    Fields,
    /// A field isn't UTF-8.
    NotUtf8,
    /// The identifier isn't 0, nor decimal digits without a leading zero of a value up to 2^31 - 1.
    NotANumber,
    /// The identifier is odd.
    Odd,
    /// An earlier row has the identifier.
    Repeated,
}

/// Why a file of static strings isn't read.
#[derive(Clone, Copy, Debug, PartialEq, Eq)]
pub enum TableFault {
    /// The first bad row, counted from 0, and what is wrong with it.
    Bad { row: u64, kind: TableKind },
    /// Out of memory.
    Memory,
}

impl From<Memory> for TableFault {
    ghost use Rattle.std.specs.Prelude.{◌≡◌};
    ghost use Rattle.static_dictionary.specs.declared.fault.TableFault.TheVariants as faults;

    ghost from_gives = { λ _ fault. fault ≡ faults.Memory };

    fn from(_memory: Memory) -> TableFault {
        TableFault::Memory
    }
}
