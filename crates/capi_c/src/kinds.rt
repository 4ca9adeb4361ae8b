// Ids and kinds.
ghost use Rattle.std.specs.Prelude.{◌≡◌, not};
ghost use Rattle.form.specs.Values.{kind};
ghost use Rattle.form.specs.Table.{after, reserved};
ghost use Rattle.form.specs.Ids.{sample};

// The number of the kind of the token that starts with this id.
#[unsafe(no_mangle)]
pub extern "C" fn stivlaheim_into_kind(id: u16) -> u32
    ensures { result ≡ kind (sample (after id)) }
{
    capi::kinds::stivlaheim_into_kind(id)
}

// Whether the id is none of the reserved ones.
#[unsafe(no_mangle)]
pub extern "C" fn stivlaheim_is_id(id: u16) -> bool
    ensures { result ≡ not (reserved id) }
{
    capi::kinds::stivlaheim_is_id(id)
}
