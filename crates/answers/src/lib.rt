// The line that program `resolve` writes for a value under a schema.
#![tactic(auto)]

ghost use Rattle.std.specs.Prelude.{◌≡◌, ◌++◌, ◌≤◌, length, drop};
ghost use Rattle.hulmbax.specs.Answer.{answer, workspace_size};
ghost use Rattle.lines.specs.Line.{answer_line};

// Writes it to the front of out; its length.
pub fn answer(
    schema: &[u8],
    value: &[u8],
    res: &mut [u8],
    workspace: &mut [u8],
    out: &mut [u8],
) -> usize
    requires { (length res.old ≡ 65535) × (workspace_size ≤ length workspace.old) × (131073 ≤ length out.old) }
    ensures value { (result ≡ length (answer_line (answer schema.now value.now 65535 workspace_size))) × (result ≤ 131073) }
    ensures out_after { out.new ≡ answer_line (answer schema.now value.now 65535 workspace_size) ++ drop (length (answer_line (answer schema.now value.now 65535 workspace_size))) out.old }
{
    match calls::call(schema, value, res, workspace) {
        Ok(n) => lines::accepted(&res[..n], out),
        Err(e) => lines::refused(e.number(), out),
    }
}
