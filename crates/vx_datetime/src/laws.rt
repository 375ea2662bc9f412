//! The law of metadata. The function does nothing: its clause is the law.

ghost use Rattle.std.specs.Prelude.{◌≡◌, None};
ghost use Rattle.vx_datetime.specs.Metadata.{spelling, spelling_refusal};
ghost use Rattle.vx_datetime.specs.declared.metadata.DateTimePartsMetadata.{DateTimePartsMetadata};

/// Different metadata have different spellings.
pub fn unlike_metadata_have_unlike_spellings()
    ensures { (a b : DateTimePartsMetadata) → spelling_refusal a ≡ None → spelling_refusal b ≡ None → spelling a ≡ spelling b → a ≡ b }
{}
