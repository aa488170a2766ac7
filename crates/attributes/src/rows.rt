ghost use Rattle.attributes.specs.Rows.{AttributeRows};

/// What the attributes of a small medium are.
pub fn worked_attributes()
    ensures { AttributeRows }
{}
