// Calls of the entry: what each of them shows is what the claims of demand 3 speak of.
#![tactic(auto)]

ghost use Rattle.base.specs.Refusal.{outcome_of};
ghost use Rattle.stability.specs.Claims.{Called};

use base::refusal::Refusal;

// A call of the entry.
pub fn call(
    schema: &[u8],
    record: &[u8],
    res: &mut [u8],
    workspace: &mut [u8],
) -> Result<usize, Refusal>
    ensures { Called schema.now «record».now res.old res.new workspace.old workspace.new (outcome_of result) }
{
    hulmbax::resolve(schema, record, res, workspace)
}
