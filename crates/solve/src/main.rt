// Reads a network image from standard input, solves it and prints the answer. What is printed is the text of `command::run`.
// Where reading or writing fails, a line on standard error says so. The exit status is 0 all the same.
// No heap: input and text are arrays of the largest sizes.
#![tactic(auto)]

use command::run;
use stream::{read_all, write_all};

// Prints what comes of an image.
fn answer(rt: &HostRuntime, image: &[u8]) {
    let mut text = [0u8; 65536];
    let printed = run(image, &mut text);
    let length = printed.length;
    if write_all(&mut rt.stdout(), &text[..length]) < length {
        write_all(&mut rt.stderr(), b"solve: cannot write standard output\n");
    }
}

fn main(rt: HostRuntime) {
    // One byte more than the longest image, so that a longer one is seen to be longer.
    let mut image = [0u8; 16385];
    match read_all(&mut rt.stdin(), &mut image) {
        Ok(count) => answer(&rt, &image[..count]),
        Err(_) => {
            write_all(&mut rt.stderr(), b"solve: cannot read standard input\n");
        }
    }
}
