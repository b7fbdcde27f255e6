// A lent area ends all zero, whatever its words are.
#![tactic(auto)]

ghost use Rattle.std.specs.Prelude.{◌≡◌, length, replicate};

// One function for each width: over a type parameter it would be `fill` itself, and ask of the type what `fill` asks, in more lines than these.
pub fn clear8(area: &mut [u8])
    ensures { area.new ≡ replicate (length area.old) 0 }
{
    area.fill(0u8);
}

pub fn clear32(area: &mut [u32])
    ensures { area.new ≡ replicate (length area.old) 0 }
{
    area.fill(0u32);
}

pub fn clear64(area: &mut [u64])
    ensures { area.new ≡ replicate (length area.old) 0 }
{
    area.fill(0u64);
}
