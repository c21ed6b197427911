// The commands: what each line of the input says. Each takes what it prints to, the example and its
// fields by themselves: some take the example only to read it, and some print nothing.
use crate::advancing::Call;
use crate::calls::{
    ask_bound, ask_latest, flush, fresh, kept_call, make_frame, query_log, read, run, show_buffer,
    write_plan,
};
use crate::example::{Example, first_example};
use crate::fields::{number, rest, word};
use crate::tables::{lend, set, show, show_window};
use crate::text::write;
use std::io;

// Does what one line says.
fn obey(rt: &impl Print, example: &mut Example, line: &[u8]) -> io::Result<()> {
    let fields = rest(line);
    match word(line) {
        b"lend" => lend(example, fields),
        b"set" => set(example, fields),
        b"show" => show(rt, example, fields)?,
        b"window" => show_window(rt, example, fields)?,
        b"read" => read(rt, example, fields)?,
        b"fresh" => fresh(rt, example, fields)?,
        b"run" => run(rt, example, Call::Run(number(rest(fields))), fields)?,
        b"step" => run(rt, example, Call::Step, fields)?,
        b"kept" => run(rt, example, kept_call(fields), fields)?,
        b"buffer" => show_buffer(rt, example, fields)?,
        b"flush" => flush(rt, example, fields)?,
        b"log" => query_log(rt, example, fields)?,
        b"frame" => make_frame(rt, example, fields)?,
        b"bound" => ask_bound(rt, example, fields)?,
        b"latest" => ask_latest(rt, example, fields)?,
        b"write" => write_plan(rt, example, fields)?,
        _ => write(example, line),
    }
    Ok(())
}

// Does what every line of the input says, in order.
pub(crate) fn obey_all(rt: &impl Print, input: &[u8]) -> io::Result<()> {
    let mut example = first_example();
    for line in input.split(|byte| *byte == b'\n') {
        obey(rt, &mut example, line)?;
    }
    Ok(())
}
