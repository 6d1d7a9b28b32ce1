// From code to its image.

ghost use Rattle.std.specs.Prelude.{◌≡◌, IfOk};
ghost use Rattle.cg_program.specs.Compiled.{machine_code};
ghost use Rattle.cg_image.specs.Image.{image_bytes};
ghost use Rattle.cg_image.specs.Short.{AreCounted};

use cg_program::code::Code;
use lu_base::Memory;
use std::alloc::Global;

/// The image of the machine's program of the code.
pub fn write_image(alloc: Global, code: &Code) -> Result<Vec<u8>, Memory>
    requires { AreCounted (machine_code code.now) }
    ensures { IfOk result (λ image. image.items ≡ image_bytes (machine_code code.now)) }
{
    cg_image::write_image(alloc, code.machine())
}
