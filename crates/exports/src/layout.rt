// What an archive is, in numbers, for a caller to hold its own declarations to before it hands a record over.
ghost use Rattle.std.specs.Prelude.{◌≡◌};
ghost use Rattle.exports.specs.Layouts.{layout};

// The version of the archive, and the size in bytes of each record that crosses.
#[repr(C)]
#[derive(Clone, Copy)]
pub struct Layout {
    pub version: u64,
    pub book: u64,
    pub ledger: u64,
    pub held: u64,
    pub told: u64,
    pub counts: u64,
    pub counts_told: u64,
    pub ledger_told: u64,
    pub turn_told: u64,
    pub line_told: u64,
}

#[unsafe(no_mangle)]
pub extern "C" fn wermazul_layout() -> Layout
    ensures { result ≡ layout }
{
    Layout {
        version: 4000,
        book: 2072,
        ledger: 656,
        held: 2080,
        told: 80,
        counts: 24,
        counts_told: 104,
        ledger_told: 736,
        turn_told: 112,
        line_told: 2184,
    }
}
