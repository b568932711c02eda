//! Laws of module text.

ghost use Rattle.std.specs.Prelude.{◌≡◌, true, false, ℕ, List};
ghost use Rattle.serde_json.specs.Data.{Data};
ghost use Rattle.xk_types.specs.Code.{ModuleValue};
ghost use Rattle.xk_module.specs.ModuleText.{has_forto, module_value, module_value_in, Names, IsInRange, IsModuleText};
ghost use Rattle.xk_module.specs.declared.version.Version.{Version};
ghost use Rattle.xk_module.specs.declared.version.Version.TheVariants as version;

/// A JSON value names one module at most, and a text is that of one module at most.
pub fn at_most_one_module()
    ensures value { (d : Data) (m n : ModuleValue) → Names d m → Names d n → m ≡ n }
    ensures text { (bytes : List ℕ) (m n : ModuleValue)
        → IsModuleText bytes m → IsModuleText bytes n → m ≡ n }
{}

/// The value of a module whose numbers are in their ranges names that module, and no other.
pub fn value_of_a_module()
    ensures named { (m : ModuleValue) → IsInRange m → Names (module_value m) m }
    ensures alone { (m n : ModuleValue) → IsInRange m → Names (module_value m) n → n ≡ m }
{}

/// A module without a `forto` has a value in each version, and one with a `forto` has none in version 1: such a value names no module.
pub fn values_in_versions()
    ensures without { (m : ModuleValue) → IsInRange m → has_forto m.units ≡ false
        → (v : Version) → Names (module_value_in v m) m }
    ensures with_forto { (m n : ModuleValue) → IsInRange m → has_forto m.units ≡ true
        → ¬ Names (module_value_in version.One m) n }
{}
