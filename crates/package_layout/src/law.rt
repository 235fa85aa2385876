//! The law of the layout. The function has no body: its contract is the theorem.

ghost use Rattle.std.specs.Prelude.{◌≡◌, ◌≤◌, Ok, IsTrue, length};
ghost use Rattle.ldv_value.specs.Limits.{input_limit};
ghost use Rattle.run_model.specs.declared.package.Package.{Package};
ghost use Rattle.package_layout.specs.Counted.{IsCounted};
ghost use Rattle.package_codec.specs.Plain.{fits_version, has_tables};
ghost use Rattle.package_layout.specs.Valid.{IsValidPackage, reading};
ghost use Rattle.package_codec.specs.declared.version.Version.{Version};
ghost use Rattle.package_codec.specs.declared.version.Version.TheVariants.{One, Two};
ghost use Rattle.package_layout.specs.Whole.{IsTyped, spelling_as};

/// The law of the layout, over all packages that memory can hold. For each version, two valid packages with
/// the same spelling are equal if the version can write their tables. The spelling of a valid package is read
/// as that package, however long it is, if the version can write it and its counts of four bytes fit their
/// fields. They fit if the spelling isn't too long. No bytes are a spelling of both versions.
pub fn round_trip_law()
    ensures unique { (version : Version) (p q : Package) → IsTyped p
        → IsTyped q → IsValidPackage p → IsValidPackage q →
        IsTrue (has_tables version p) → IsTrue (has_tables version q) →
        IsCounted version p → IsCounted version q → spelling_as version p ≡ spelling_as version q → p ≡ q }
    ensures again { (version : Version) (p : Package) → IsTyped p → IsValidPackage p →
        IsTrue (fits_version version p) → IsCounted version p → reading (spelling_as version p) ≡ Ok p }
    ensures counted { (version : Version) (p : Package) → length (spelling_as version p) ≤ input_limit →
        IsCounted version p }
    ensures apart { (p q : Package) → ¬ (spelling_as One p ≡ spelling_as Two q) }
{}
