//! The rules on module texts.

ghost use Rattle.std.specs.Prelude.{◌≡◌, option_map};
ghost use Rattle.xk_module.specs.Faults.{fault_label};
ghost use Rattle.xk_explain.specs.Messages.{module_name, module_number, module_rule};
ghost use Rattle.xk_explain.specs.Explanations.{module_title};

use xk_module::ModuleFault;

/// A rule on module texts, M1 to M3.
#[derive(Clone, Copy, Debug, PartialEq, Eq)]
pub enum ModuleRule {
    /// M1: the bytes are no JSON text that is read.
    NotJson,
    /// M2: they are one, and its value names no module.
    NotAModule,
    /// M3: it names one that goes beyond a limit.
    Limit,
}

impl ModuleRule {
    /// The rule that the bytes break, of which `M1 NotJson` is told. None where memory was refused, since that says nothing about the bytes.
    pub fn of(fault: ModuleFault) -> Option<ModuleRule>
        ensures rule { result ≡ module_rule fault }
        ensures label { option_map module_title result ≡ fault_label fault }
    {
        match fault {
            ModuleFault::NotJson => Some(ModuleRule::NotJson),
            ModuleFault::NotAModule => Some(ModuleRule::NotAModule),
            ModuleFault::Limit => Some(ModuleRule::Limit),
            ModuleFault::OutOfMemory => None,
        }
    }

    /// The number, from 1 to 3: `M2` is the rule with the number 2.
    pub fn number(self) -> u8
        ensures { result ≡ module_number self }
    {
        match self {
            ModuleRule::NotJson => 1,
            ModuleRule::NotAModule => 2,
            ModuleRule::Limit => 3,
        }
    }

    /// The name that a refusal prints.
    pub fn name(self) -> &'static str
        ensures { result.now ≡ module_name self }
    {
        match self {
            ModuleRule::NotJson => "NotJson",
            ModuleRule::NotAModule => "NotAModule",
            ModuleRule::Limit => "Limit",
        }
    }
}
