ghost use Rattle.std.specs.Prelude.{◌≡◌};
ghost use Rattle.syntax.specs.Left.{lines_left};
ghost use Rattle.syntax.specs.Lines.{lines};
ghost use Rattle.bench.specs.Input.{is_dot_text, site_of, beyond};

use syntax::Lines;

// Is the line one `.`? The first such line ends the site text, and readings follow it.
fn is_dot(line: &[u8]) -> bool
    ensures { result ≡ is_dot_text line.now }
{
    matches!(line, [b'.'])
}

// The input before its first line `.`; without one, all of it.
pub(crate) fn site_text(input: &[u8]) -> &[u8]
    ensures { result.now ≡ site_of input.now }
{
    let extent: usize = Lines::new(input)
        .take_while(|line| !is_dot(line))
        .map(|line| line.len() + 1)
        .sum();
    &input[..extent.min(input.len())]
}

// The lines after the first line `.`; without one, none.
pub(crate) fn reading_lines(input: &[u8]) -> Lines<'_>
    ensures { lines_left result ≡ beyond (lines input.now) }
{
    let mut lines = Lines::new(input);
    let _ = lines.find(|line| is_dot(line));
    lines
}
