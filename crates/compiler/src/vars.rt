ghost use Rattle.std.specs.Prelude.{◌≡◌};
ghost use Rattle.meaning.specs.Compiler.{reg_of};
ghost use Rattle.compiler.specs.Lists.{helds_of};

use meaning::Reg;

// A variable and the register that it is bound to.
#[derive(Clone, Copy, Default)]
pub struct Bound {
    pub var: u32,
    pub reg: Reg,
}

// The register that v is bound to, if it is: that of the first binding.
pub fn reg_of(vars: &[Bound], v: u32) -> Option<Reg>
    ensures { result ≡ reg_of (helds_of vars.now) v }
{
    vars.iter().find(|b| b.var == v).map(|b| b.reg)
}
