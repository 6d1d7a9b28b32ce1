// The machine's program with the program that it is made of.

ghost use Rattle.std.specs.Prelude.{◌≡◌};
ghost use Rattle.bm_code.specs.Accepted.{IsAccepted};
ghost use Rattle.cg_program.specs.Compiled.{Source, IsSource, source, machine_code};

use bm_code::code::MachineCode;
use sqlite_items::Items;
use src_tree::expr::TypedExpr;
use src_tree::program::Program;
use std::marker::Model;

/// A machine's program, with the program and the filters that it is made of, which are what contracts see.
#[derive(Drop)]
pub struct Code {
    machine: MachineCode,
    program: Program,
    filters: Items<TypedExpr>,
}

impl Model for Code {
    ghost use Rattle.std.specs.Prelude.{◌≡◌};
    ghost use Rattle.cg_program.specs.Codes.{source_code};
    ghost use Rattle.cg_program.specs.Compiled.{Source, IsSource, source, machine_code};

    ghost Value = { Source };

    ghost coded = { source_code };

    ghost view = { λ c. source c.program c.filters };

    ghost invariant = { λ c. (c.machine ≡ machine_code (source c.program c.filters)) × IsSource (source c.program c.filters) };
}

impl Code {
    /// It takes no memory.
    pub(crate) fn of(machine: MachineCode, program: Program, filters: Items<TypedExpr>) -> Code
        requires machine { machine ≡ machine_code (source program filters) }
        requires source { IsSource (source program filters) }
        ensures { result ≡ source program filters }
    {
        Code {
            machine,
            program,
            filters,
        }
    }

    /// The machine's program, which the machine takes. It takes no memory.
    pub fn machine(&self) -> &MachineCode
        ensures value { result.now ≡ machine_code self.now }
        ensures accepted { IsAccepted result.now }
    {
        &self.machine
    }

    /// The program that the code is made of. It takes no memory.
    pub fn program(&self) -> &Program
        ensures value { result.now ≡ self.now.program }
        ensures source { IsSource self.now }
    {
        &self.program
    }

    /// The filters, of which each has a hidden function, in order, behind the program's functions. It takes no memory.
    pub fn filters(&self) -> &[TypedExpr]
        ensures { result.now ≡ self.now.filters }
    {
        self.filters.as_slice()
    }

    /// Puts an equal machine's program in place of its own. It takes no memory.
    pub fn reload(&mut self, machine: MachineCode)
        requires { machine ≡ machine_code self.old }
        ensures { self.new ≡ self.old }
    {
        self.machine = machine;
    }
}
