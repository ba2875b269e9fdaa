// The plans of an account, or of all accounts.
ghost use Rattle.std.specs.Prelude.{◌≡◌, ◌++◌, [], ◌∷◌, IfOk, OnOk, ⊤};
ghost use Rattle.std.specs.List.{find};
ghost use Rattle.std.specs.Option.{option_copied, option_map};
ghost use Rattle.arc_data.specs.Classes.{same_class};

use action_plans::Plan;
use arc_data::Class;
use std::alloc::{AllocError, Global};
use std::marker::Model;

/// The plan for a class, and the number of the line that declares it.
#[derive(Drop)]
pub(crate) struct ClassPlan {
    pub class: Class,
    pub plan: Plan,
    pub line: u64,
}

impl Clone for ClassPlan {
    ghost is_clone = { λ plan copy. copy ≡ plan };

    ghost is_infallible = { λ plan. ⊤ };

    fn clone(&self) -> Result<ClassPlan, AllocError> {
        Ok(ClassPlan {
            class: self.class,
            plan: self.plan.copy(),
            line: self.line,
        })
    }
}

/// Plans in the order of their lines, of which each class has one at most. Contracts see them as a list.
#[derive(Drop)]
pub(crate) struct PlanList {
    items: Vec<ClassPlan>,
}

impl Model for PlanList {
    ghost use Rattle.std.specs.Prelude.{List};
    ghost use Rattle.accounts.specs.declared.plan_list.ClassPlan.{ClassPlan};

    ghost Value = { List ClassPlan };

    ghost view = { λ p. p.items.items };
}

impl Clone for PlanList {
    ghost is_clone = { λ plans copy. copy ≡ plans };

    fn clone(&self) -> Result<PlanList, AllocError> {
        Ok(PlanList {
            items: self.items.clone()?,
        })
    }
}

impl PlanList {
    /// No plans. Takes no memory.
    pub(crate) fn new(alloc: Global) -> PlanList
        ensures { result ≡ [] }
    {
        PlanList {
            items: Vec::new(alloc),
        }
    }

    /// The plan for a class.
    pub(crate) fn find(&self, class: Class) -> Option<&ClassPlan>
        ensures { option_copied result ≡ find (λ p. same_class class p.class) self.now }
    {
        self.items.iter().find(|plan| class == plan.class)
    }

    /// A copy of the plan for a class.
    pub(crate) fn plan(&self, class: Class) -> Option<Plan>
        ensures { result ≡ option_map (λ p. p.plan) (find (λ p. same_class class p.class) self.now) }
    {
        let found = self.find(class)?;
        Some(found.plan.copy())
    }

    /// Puts a plan last.
    pub(crate) fn push(&mut self, plan: ClassPlan) -> Result<(), AllocError>
        ensures { OnOk result (self.new ≡ self.old ++ plan ∷ []) }
    {
        self.items.push(plan)?;
        Ok(())
    }
}
