// Program published: worked examples of public documents, a line each, run through the leaves. It echoes each line of standard
// input and adds what the leaf gives; a line that begins with # names the document and is echoed alone. stdin has the examples,
// and stdout what the documents say: RFC 3629 and RFC 4122 print their own answers; those of IEEE 754 and of the decimal rule
// are worked out by exact arithmetic over whole numbers from the rules that their section names; the byte pairs of two names are
// counted by hand.
#![tactic(auto)]

mod line;
mod number_line;
mod text_line;

use streams::output::Output;

fn main(rt: HostRuntime) {
    if streams::output::usage(
        &rt,
        streams::output::words(&rt),
        b"usage: published < EXAMPLES\nReads worked examples, a line each, from standard input. It takes no arguments.\n",
    ) {
        return;
    }
    let mut block = [0u8; 4096];
    let mut text = [0u8; 4096];
    let mut out = Output::new(&rt);
    streams::input::each_line(&rt, &mut block, &mut text, &mut out, |line, out| {
        line::answer(out, line);
    });
}
