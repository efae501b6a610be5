// Lines of input: without the carriage return at their end, and as a program shows them.
#![tactic(auto)]

ghost use Rattle.std.specs.Prelude.{◌≡◌, ◌<◌, Some};
ghost use Rattle.lines.specs.Lines.{shown, quoted, without_return};

use std::fmt;

// A line without a carriage return at its end.
pub fn without_return(line: &[u8]) -> &[u8]
    ensures { result.now ≡ without_return line.now }
{
    match line {
        [text @ .., b'\r'] => text,
        _ => line,
    }
}

// A line that prints in quotation marks, with `?` for each byte that cannot be shown.
#[derive(Clone, Copy)]
pub struct Quoted<'a>(pub &'a [u8]);

impl fmt::Display for Quoted<'_> {
    ghost output = { λ q. Some (quoted q.0.now) };

    fn fmt<W: fmt::Write>(&self, f: &mut fmt::Formatter<W>) -> fmt::Result {
        write!(f, "\"")?;
        for byte in self.0 {
            write!(f, "{}", shown(*byte))?;
        }
        write!(f, "\"")
    }
}

// A byte as it is shown.
fn shown(byte: u8) -> char
    ensures value { result ≡ shown byte }
    ensures ascii { result < 128 }
{
    match byte {
        b' '..=b'~' => char::from(byte),
        _ => '?',
    }
}

#[cfg(test)]
mod tests {
    use super::*;
    use std::test::Fail;

    #[test]
    fn quotes_lines(rt: HostRuntime) -> Result<(), Fail> {
        let alloc = rt.alloc();
        assert_eq!(rt; Quoted(b"").to_string(alloc)?.as_str(), "\"\"");
        assert_eq!(rt; Quoted(b"abAc-").to_string(alloc)?.as_str(), "\"abAc-\"");
        assert_eq!(rt;
            Quoted(&[31, 32, 126, 127]).to_string(alloc)?.as_str(),
            "\"? ~?\""
        );
        assert_eq!(rt;
            Quoted(&[0, 128, 255]).to_string(alloc)?.as_str(),
            "\"???\""
        );
        Ok(())
    }

    #[test]
    fn drops_one_return(rt: HostRuntime) -> Result<(), Fail> {
        assert_eq!(rt; without_return(b""), b"".as_slice());
        assert_eq!(rt; without_return(&[13]), b"".as_slice());
        assert_eq!(rt; without_return(b"a\r"), b"a".as_slice());
        assert_eq!(rt; without_return(b"a\r\r"), b"a\r".as_slice());
        assert_eq!(rt; without_return(b"\ra"), b"\ra".as_slice());
        Ok(())
    }
}
