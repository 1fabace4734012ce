//! What holds of every picture.
ghost use Rattle.forecast_svg.specs.Laws.{NoNameEndsItsText};

/// No name has, as it is written, a byte that ends the text or the attribute in which it stands.
pub fn no_name_ends_its_text()
    ensures { NoNameEndsItsText }
{}
