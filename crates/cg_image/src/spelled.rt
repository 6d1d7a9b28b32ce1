// What has a spelling in an image.

ghost use Rattle.std.specs.Prelude.{◌≡◌, ◌<◌, ◌^◌, ◌++◌, All, OnOk, length, ℕ, List};
ghost use Rattle.cg_image.specs.Image.{number_bytes, list_bytes, text_bytes};

use lu_base::Memory;
use std::alloc::Global;

/// An item of a list of an image.
pub(crate) trait Spelled {
    // The bytes of an item.
    ghost spelling: { Self → List ℕ };

    // The lists in it are short enough.
    ghost is_counted: { Self → Type 0 };

    /// Puts the item's bytes behind `out`. Without memory a front of them may stand there.
    fn put(&self, alloc: Global, out: &mut Vec<u8>) -> Result<(), Memory>
        requires { is_counted self.now }
        ensures { OnOk result (out.new.items ≡ out.old.items ++ spelling self.now) };
}

#[tactic(auto, unfolding(lu_spec::specs::LittleEndian::little_endian))]
pub(crate) fn put_number(out: &mut Vec<u8>, number: u32) -> Result<(), Memory>
    ensures { OnOk result (out.new.items ≡ out.old.items ++ number_bytes number) }
{
    out.extend_from_slice(&number.to_le_bytes())?;
    Ok(())
}

pub(crate) fn put_text(out: &mut Vec<u8>, bytes: &[u8]) -> Result<(), Memory>
    requires { length bytes.now < 2 ^ 32 }
    ensures { OnOk result (out.new.items ≡ out.old.items ++ text_bytes bytes.now) }
{
    put_number(out, bytes.len() as u32)?;
    out.extend_from_slice(bytes)?;
    Ok(())
}

pub(crate) fn put_list<T: Spelled>(
    alloc: Global,
    out: &mut Vec<u8>,
    items: &[T],
) -> Result<(), Memory>
    requires count { length items.now < 2 ^ 32 }
    requires each { All T.is_counted items.now }
    ensures { OnOk result (out.new.items ≡ out.old.items ++ list_bytes T.spelling items.now) }
{
    put_number(out, items.len() as u32)?;
    for item in items {
        item.put(alloc, out)?;
    }
    Ok(())
}
