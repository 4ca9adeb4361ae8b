// What can be rescued of a clipped save, into a lent output.
ghost use Rattle.std.specs.Prelude.{◌≡◌, length};
ghost use Rattle.form.specs.Writing.{outcome};
ghost use Rattle.form.specs.Rescue.{rescue as Rescue·rescue, told};
ghost use Rattle.capi.specs.Replies.{returned, into};
ghost use Rattle.capi.specs.Outputs.{rescue_reply, left_by};

// The rescued save. The output is left alone where the answer list is too short.
#[unsafe(no_mangle)]
pub extern "C" fn stivlaheim_rescue(bytes: &[u8], out: &mut [u8], answer: &mut [u64]) -> u32
    ensures answer_after { returned result answer.new ≡ into answer.old (rescue_reply (outcome (Rescue·rescue (length out.old) bytes.now)) (told (length out.old) bytes.now)) }
    ensures out_after { out.new ≡ left_by answer.old (Rescue·rescue (length out.old) bytes.now) out.old }
{
    capi::rescuing::stivlaheim_rescue(bytes, out, answer)
}
