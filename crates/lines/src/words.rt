// The words of a line.
ghost use Rattle.std.specs.Prelude.{◌≡◌, [], ◌-◌, ◌≤◌, length, take, drop, get_or};
ghost use Rattle.lines.specs.Text.{same};
ghost use Rattle.lines.specs.Lines.{words};

// How many words a line has.
pub fn count(line: &[u8]) -> usize
    ensures { result ≡ length (words line.now) }
{
    line.iter().filter(|c| **c == b' ').count() + 1
}

// Where word number `k` starts, the line's end where there is no such word.
pub fn start(line: &[u8], k: usize) -> usize
    ensures { (result ≤ length line.now) × (get_or (words line.now) k [] ≡ get_or (words (drop result line.now)) 0 []) }
{
    let mut left = k;
    for i in 0..line.len() {
        if left == 0 {
            return i;
        }
        if line[i] == b' ' {
            left -= 1;
        }
    }
    line.len()
}

// Where the word that starts at `from` ends.
pub fn end(line: &[u8], from: usize) -> usize
    requires { from ≤ length line.now }
    ensures { (from ≤ result) × (result ≤ length line.now) × (get_or (words (drop from line.now)) 0 []
        ≡ take (result - from) (drop from line.now)) }
{
    match line[from..].iter().position(|c| *c == b' ') {
        Some(k) => from + k,
        None => line.len(),
    }
}

// Whether two texts are the same.
pub fn equal(a: &[u8], b: &[u8]) -> bool
    ensures { result ≡ same a.now b.now }
{
    a == b
}

// Whether word number `k` is the text.
pub fn is(line: &[u8], k: usize, text: &[u8]) -> bool
    ensures { result ≡ same (get_or (words line.now) k []) text.now }
{
    let from = start(line, k);
    let to = end(line, from);
    equal(&line[from..to], text)
}
