// The two answers to a bid sheet, its closing sheet and its sheet of reasons, run on every number that turns a sheet down. The file `stdin` has 128 bytes for each
// case: a line with what is asked in words and, in two hexadecimal digits, how many of the following 82 bytes are the sheet. The program writes that line again,
// and both answers. What must be written stands in the file `stdout`, which was written from documents 01 and 02 and not from a run.
#![tactic(auto)]

ghost use Rattle.io.specs.Counts.{IsPrefixLen};

// How many bytes the sheet has; none where there are not so many.
fn size(words: &[u8; 46], bytes: &[u8]) -> usize
    ensures { IsPrefixLen result bytes.now }
{
    let n = digits::number_at(words, 43, 2).unwrap_or(0) as usize;
    if n <= bytes.len() { n } else { 0 }
}

fn closing(bytes: &[u8]) {
    let mut out = io::buffer();
    let k = sheet::answer(bytes, &mut out);
    io::write_all(1, &out[..k]);
}

fn reasons(bytes: &[u8]) {
    let mut out = io::buffer();
    let k = reasons::answer(bytes, &mut out);
    io::write_all(1, &out[..k]);
}

// One case, and whether there was one.
fn take_case() -> bool {
    let mut words = [0u8; 46];
    let mut bytes = [0u8; 82];
    io::read_full(0, &mut words);
    let got = io::read_full(0, &mut bytes);
    if got < 82 {
        return false;
    }
    io::write_all(1, &words);
    let n = size(&words, &bytes);
    closing(&bytes[..n]);
    reasons(&bytes[..n]);
    true
}

// At most so many cases, as a proved loop has to end.
fn main() {
    for _ in 0..1000 {
        if !take_case() {
            return;
        }
    }
}
