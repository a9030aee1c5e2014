// The program of document 01: f, l, k and the allowance on standard input, then an archive; the shortlist on standard output.
#![tactic(auto)]

// One byte more than the most that is accepted tells a longer input. Input that cannot be read counts as ended.
fn main(rt: HostRuntime) {
    let mut input = [0u8; 65537];
    let mut output = [0u8; 65536];
    let got = report::read_full(&mut rt.stdin(), &mut input);
    let n = report::whole(&input[..got], &mut output);
    if rt.stdout().write_all(&output[..n]).is_err() {
        let _ = rt
            .stderr()
            .write_all(b"shortlist: the report was not written\n");
    }
}
