use std::fmt;

// Bytes as text: byte 10 is written as `|`, and any other byte that is no ASCII letter, digit or sign as `<number>`.
#[derive(Clone, Copy)]
pub(crate) struct Quoted<'a>(pub &'a [u8]);

impl fmt::Display for Quoted<'_> {
    fn fmt<W: fmt::Write>(&self, f: &mut fmt::Formatter<W>) -> fmt::Result {
        for byte in self.0 {
            match *byte {
                b'\n' => f.write_char('|')?,
                b' '..=b'~' => f.write_char(char::from(*byte))?,
                other => write!(f, "<{other}>")?,
            }
        }
        Ok(())
    }
}
