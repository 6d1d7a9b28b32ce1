// What candidates say of a pointer's image.

ghost use Rattle.std.specs.Prelude.{◌≡◌};
ghost use Rattle.lu_remap.specs.Descent.{add, add_if, answer_of};

use lu_image::Why;

/// What the candidates so far say of a pointer's image.
#[derive(Clone, Copy, Debug, PartialEq, Eq)]
pub enum Spot {
    /// There is none.
    Nowhere,
    /// None of them has an image.
    Lost,
    /// All of them have one image, at this offset in bytes.
    Goes(u32),
    /// Two of them differ.
    Unclear,
}

impl Spot {
    /// With one more candidate, and its new offset in bytes if it has an image.
    fn add(self, image: Option<u32>) -> Spot
        ensures { result ≡ add self image }
    {
        match (self, image) {
            (Spot::Nowhere, None) => Spot::Lost,
            (Spot::Nowhere, Some(offset)) => Spot::Goes(offset),
            (Spot::Lost, None) => Spot::Lost,
            (Spot::Goes(offset), Some(other)) if offset == other => Spot::Goes(offset),
            _ => Spot::Unclear,
        }
    }

    pub fn add_if(self, is_candidate: bool, image: Option<u32>) -> Spot
        ensures { result ≡ add_if is_candidate image self }
    {
        if is_candidate { self.add(image) } else { self }
    }

    /// The new offset, or why there is none.
    pub fn answer(self) -> Result<u32, Why>
        ensures { result ≡ answer_of self }
    {
        match self {
            Spot::Nowhere => Err(Why::NoPlace),
            Spot::Lost => Err(Why::LostTarget),
            Spot::Goes(offset) => Ok(offset),
            Spot::Unclear => Err(Why::Ambiguous),
        }
    }
}
