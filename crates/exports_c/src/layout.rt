// What an archive is, in numbers, for a caller to hold its own declarations to before it hands a record over.
ghost use Rattle.std.specs.Prelude.{◌≡◌};
ghost use Rattle.exports.specs.Layouts.{layout};

use exports::layout::Layout;

#[unsafe(no_mangle)]
pub extern "C" fn wermazul_layout() -> Layout
    ensures { result ≡ layout }
{
    exports::layout::wermazul_layout()
}
