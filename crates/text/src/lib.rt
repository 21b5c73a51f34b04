// Lines of text into a lent buffer: a decimal number has no leading zero, and a line that does not fit whole is not written.
#![tactic(auto)]

ghost use Rattle.std.specs.Prelude.{◌≡◌, ◌+◌, ◌≤◌, length, take};
ghost use Rattle.text.specs.Text.{most_letters, width_of, decimal, line, last_line, Appended};
ghost use Rattle.text.specs.Promises.{WidthIs};
ghost use Rattle.text.specs.Inner.{head_of, headed, HeadWidth, Put};

// How many letters of a word are written.
pub const MOST_LETTERS: usize = 10;

// How many decimal digits n has.
pub fn width(n: u64) -> usize
    ensures { WidthIs n result }
{
    // `as`: Rust has no `From` of a u32 for usize. A digit, below, is less than ten.
    n.max(1).ilog10() as usize + 1
}

// How many bytes stand in front of a line: its number's digits and a space, or none.
fn head_width(head: Option<u64>) -> usize
    ensures { HeadWidth head result }
{
    match head {
        Some(n) => width(n) + 1,
        None => 0,
    }
}

// A line as it is put: the buffer, and where the next byte goes.
#[derive(Drop)]
struct Line<'a> {
    out: &'a mut [u8],
    at: usize,
}

impl Line<'_> {
    // Puts the bytes of s. A `for` and no `copy_from_slice`: in a line that becomes a call of `memmove`, which a host in C need not have.
    fn bytes(&mut self, s: &[u8])
        requires { self.old.at + length s.now ≤ length self.old.out.now }
        ensures text { Put self.old.out.now self.old.at s.now self.new.at self.new.out.now }
        ensures same_buffer { self.new.out.ghost_name ≡ self.old.out.ghost_name }
    {
        for &b in s {
            self.out[self.at] = b;
            self.at += 1;
        }
    }

    // Puts a number in decimal. No `write!`: it needs a `fmt::Write` for the line and an answer to errors that do not occur, and is no plainer.
    fn number(&mut self, n: u64)
        requires { self.old.at + width_of n ≤ length self.old.out.now }
        ensures text { Put self.old.out.now self.old.at (decimal n) self.new.at self.new.out.now }
        ensures same_buffer { self.new.out.ghost_name ≡ self.old.out.ghost_name }
    {
        let k = width(n);
        let mut rest = n;
        for i in (0..k).rev() {
            self.out[self.at + i] = b'0' + (rest % 10) as u8;
            rest /= 10;
        }
        self.at += k;
    }

    // Puts a number and a space, where the line has a number in front.
    fn head(&mut self, head: Option<u64>)
        requires { self.old.at + length (head_of head) ≤ length self.old.out.now }
        ensures text { Put self.old.out.now self.old.at (head_of head) self.new.at self.new.out.now }
        ensures same_buffer { self.new.out.ghost_name ≡ self.old.out.ghost_name }
    {
        if let Some(n) = head {
            self.number(n);
            self.bytes(b" ");
        }
    }
}

// `out` and `at` stay apart, here and above: a place may lie past the end, where a tape is only measured.
// Appends a line at `at` where it fits whole, else changes nothing: a number in front where there is one, a word's letters, and a number.
// The result is the line's length either way.
fn append(out: &mut [u8], at: usize, head: Option<u64>, letters: &[u8], x: u64) -> usize
    ensures { Appended out.old at (headed head (take most_letters letters.now) x) result out.new }
{
    let word = &letters[..MOST_LETTERS.min(letters.len())];
    let len = head_width(head) + word.len() + 1 + width(x) + 1;
    if at > out.len() || len > out.len() - at {
        return len;
    }
    let mut line = Line { out, at };
    line.head(head);
    line.bytes(word);
    line.bytes(b" ");
    line.number(x);
    line.bytes(b"\n");
    len
}

// A call's line: its number, a word's letters and a number. This and `last` stay beside `append`: docs/PROMISES.md promises both.
pub fn numbered(out: &mut [u8], at: usize, n: u64, letters: &[u8], x: u64) -> usize
    ensures { Appended out.old at (line n (take most_letters letters.now) x) result out.new }
{
    append(out, at, Some(n), letters, x)
}

// A tape's last line: a word's letters and a number.
pub fn last(out: &mut [u8], at: usize, letters: &[u8], x: u64) -> usize
    ensures { Appended out.old at (last_line (take most_letters letters.now) x) result out.new }
{
    append(out, at, None, letters, x)
}
