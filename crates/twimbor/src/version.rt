// The archive's version. The header and the Rust crate refer to this name, which has theirs in it: over an archive of another version
// it is what the linker finds missing, and says.
ghost use Rattle.std.specs.Prelude.{◌≡◌};
ghost use Rattle.twimbor.specs.Version.{version_number};

#[unsafe(no_mangle)]
pub extern "C" fn twimbor_header_0_12_0_needs_archive_0_12_0() -> u32
    ensures { result ≡ version_number }
{
    12000
}
