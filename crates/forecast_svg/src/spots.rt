//! Places on a picture.
ghost use Rattle.std.specs.Prelude.{◌≡◌};
ghost use Rattle.forecast_svg.specs.PictureText as model;

/// The place so many steps behind another one; the greatest number where it is larger than numbers go.
pub(crate) fn spot(base: u64, step: u64, count: usize) -> u64
    ensures { result ≡ model.spot base step count }
{
    base.saturating_add(step.saturating_mul(count as u64))
}
