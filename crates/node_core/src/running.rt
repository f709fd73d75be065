//! A member of the cluster as it runs.
ghost use Rattle.std.specs.Prelude.{◌≡◌, ◌<◌, IfOk};
ghost use Rattle.craft_base.specs.Shape.{members_of};
ghost use Rattle.world_model.specs.Nodes.{started};
ghost use Rattle.kv_apply.specs.Services as services;
ghost use Rattle.node_core.specs.Serving.{heads_up_to};
ghost use Rattle.node_core.specs.Stands.{Stands};

use crate::member::Member;
use craft_base::{MemberId, OutOfMemory, Shape};
use entry_frames::LogView;
use heard_book::Heard;
use kv_apply::Service;
use log_store::LogStore;
use peer_frames::Role;
use std::alloc::Global;
use std::marker::Model;

/// A member of the cluster as it runs, over the state that its journal leaves.
#[derive(Drop)]
pub struct Core {
    pub(crate) member: Member,
}

impl Model for Core {
    ghost use Rattle.node_core.specs.Stands.{Kept};
    ghost use Rattle.node_core.specs.Acting.{IsRangedMember, kept_of};

    ghost Value = { Kept };

    ghost view = { λ core. kept_of core.member };

    ghost invariant = { λ core. IsRangedMember core.member };
}

impl Core {
    /// A member that starts over what its journal left: a follower without a hint. The member has to be one of the cluster's, and
    /// the store one of its shape. The only error is want of memory.
    pub fn boot(
        alloc: Global,
        shape: &Shape,
        me: MemberId,
        store: LogStore,
    ) -> Result<Core, OutOfMemory>
        requires store { store.shape ≡ shape.now }
        requires member { me < members_of shape.now }
        ensures { IfOk result (λ core. Stands core (started shape.now me store.kept)) }
    {
        store.law();
        let heard = Heard::new(alloc, shape, me)?;
        let service = applied(alloc, &store)?;
        Ok(Core {
            member: Member {
                alloc,
                shape: *shape,
                me,
                store,
                role: Role::Follower,
                quiet: 0,
                hint: None,
                heard,
                prep: None,
                gather: None,
                service,
                calls: Vec::new(alloc),
                reads: Vec::new(alloc),
            },
        })
    }

    /// Its role.
    pub fn role(&self) -> Role
        ensures { result ≡ self.now.role }
    {
        self.member.role
    }

    /// What outlives a crash of it.
    pub fn store(&self) -> &LogStore
        ensures shape { result.now.shape ≡ self.now.shape }
        ensures kept { result.now.kept ≡ self.now.durable }
    {
        &self.member.store
    }
}

/// The map after what is committed of a log. The only error is want of memory.
fn applied(alloc: Global, store: &LogStore) -> Result<Service, OutOfMemory>
    ensures { IfOk result (λ service. services.Stands service (heads_up_to store.now.kept.commit store.now.kept)) }
{
    let mut service = Service::new(alloc);
    for before in 0..store.commit() {
        let index = before + 1;
        let Some(entry) = store.at(index) else {
            unreachable!()
        };
        let (next, _outcome) = service.apply(index, &entry)?;
        service = next;
    }
    Ok(service)
}
