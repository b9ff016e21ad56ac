// The one-call check as a program: the text on standard input, its report on standard output. The report's first field is the verdict.
// Standard input is read until its end is told, or until more cannot change the report. Where it can't be read there is no report, and
// where the report can't be written it may not be there in full: a line on standard error says so.
#![tactic(auto)]

fn main(rt: HostRuntime) {
    let mut room = [0u8; table_input::ENOUGH];
    let input = streams::read_input(&mut rt.stdin(), &mut room);
    let mut output = [0u8; writer::REPORT_BYTES];
    let n = table_input::put_output(&room, input, &mut output);
    if let Err(error) = input {
        let _ = streams::fail(&mut rt.stderr(), b"check_table: standard input", error);
    } else if let Err(error) = streams::write_all(&mut rt.stdout(), &output[..n]) {
        let _ = streams::fail(&mut rt.stderr(), b"check_table: standard output", error);
    }
}
