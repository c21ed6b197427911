// The bytes of a plan text by their part in it. Letters and digits are those of ASCII, for which
// std has the tests.
ghost use Rattle.std.specs.Prelude.{◌≡◌};
ghost use Rattle.lexer.specs.Bytes.{ends_run};

// A bracket, a space or LF ends a run.
pub fn ends_run(byte: u8) -> bool
    ensures { result ≡ ends_run byte }
{
    matches!(byte, b' ' | b'\n' | b'(' | b')')
}
