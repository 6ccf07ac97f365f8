//! Laws about steps that pass messages: machines stay well formed, and loans come back.
ghost use Rattle.std.specs.Prelude.{ℕ, ◌≡◌, ◌≢◌, List, Option, Some};
ghost use Rattle.base.specs.declared.ids.ObjId.{ObjId as Number};
ghost use Rattle.machine.specs.declared.object.{ObjectKind.ObjectKind as Kind, Reply.Reply as Holding};
ghost use Rattle.machine.specs.declared.{slot_address.SlotAddress.SlotAddress as Slot, thread.Calling.Calling as Calls};
ghost use Rattle.machine.specs.declared.thread.{Message.Message as Given, Receiving.Receiving as Receives, RunState.RunState as State};
ghost use Rattle.machine.specs.{declared.thread.{Sending.Sending as Sends, Tcb.Tcb as Thread}, Machine.{Machine, object_of}};
ghost use Rattle.machine.specs.Releasing.{with_aborted, with_blocked, with_called, with_given, with_halted, with_holder_halted, with_ready};
ghost use Rattle.machine.specs.Step.{Bind.context_under, Deliver.{arrival_of, with_arrival}, Fetch.emptied};
ghost use Rattle.machine.specs.Step.{Receive.awaiting_message, Reply.answered, Send.called_through};
ghost use Rattle.machine.specs.WellFormed.{IsAlike, IsFree, IsIdle, IsReceivingWith, IsThread, IsWellFormed, WaitsAt, WaitsAtKind, kind_of};
ghost use Rattle.machine.specs.declared.object.Object.TheVariants as o;
ghost use Rattle.machine.specs.declared.object.ObjectKind.TheVariants as kind;
ghost use Rattle.machine.specs.declared.thread.RunState.TheVariants as state;

/// A law: a thread that leaves its queue and its reply keeps a well-formed machine well formed.
///
/// The law holds whether the thread is then ready, halted or aborted, or has a message. A reply
/// whose thread is halted is free. The inbox of a thread that isn't blocked may become empty.
pub fn releases_keep_machines_well_formed()
    ensures given { (m : Machine) (thread : Number) (message : Given) → IsWellFormed m
        → IsWellFormed (with_given m thread message) }
    ensures ready { (m : Machine) (thread : Number) → IsWellFormed m → IsWellFormed (with_ready m thread) }
    ensures halted { (m : Machine) (thread : Number) → IsWellFormed m → IsWellFormed (with_halted m thread) }
    ensures aborted { (m : Machine) (thread : Number) → IsWellFormed m → IsWellFormed (with_aborted m thread) }
    ensures holder { (m : Machine) (id : Number) → IsWellFormed m → IsWellFormed (with_holder_halted m id) }
    ensures free { (m : Machine) (id : Number) (holding : Holding)
        → IsWellFormed m
        → object_of m id ≡ Some (o.Reply holding)
        → IsFree (with_holder_halted m id) id }
    ensures emptied { (m : Machine) (thread : Number) (tcb : Thread)
        → IsWellFormed m
        → IsThread m thread tcb
        → IsIdle tcb.state
        → IsWellFormed (emptied m thread) }
{}

/// A law: a thread that isn't blocked keeps a well-formed machine well formed when it begins to wait.
///
/// The thread waits at an object as the others there do, or with a reply that holds nobody.
pub fn blocks_keep_machines_well_formed()
    ensures blocked { (m : Machine) (thread id : Number) (tcb : Thread) (run : State) (at : Kind)
        → IsWellFormed m
        → IsThread m thread tcb
        → IsIdle tcb.state
        → kind_of m id ≡ Some at
        → WaitsAt run id
        → WaitsAtKind run at
        → ((named : Number) → ¬ (IsReceivingWith run named))
        → IsAlike m id run
        → IsWellFormed (with_blocked m thread id run) }
    ensures awaiting { (m : Machine) (caller : Number) (tcb : Thread) (receiving : Receives)
        → IsWellFormed m
        → IsThread m caller tcb
        → IsIdle tcb.state
        → kind_of m receiving.endpoint ≡ Some kind.Endpoint
        → IsAlike m receiving.endpoint (state.Receiving receiving)
        → ((id : Number) → receiving.reply ≡ Some id → IsFree m id)
        → IsWellFormed (awaiting_message m caller receiving) }
    ensures called { (m : Machine) (thread : Number) (calling : Calls) (tcb : Thread)
        → IsWellFormed m
        → IsThread m thread tcb
        → IsIdle tcb.state
        → IsFree m calling.reply
        → IsWellFormed (with_called m thread calling) }
{}

/// A law: a capability that arrives with a message keeps a well-formed machine well formed.
pub fn arrivals_keep_machines_well_formed()
    ensures { (m : Machine) (sender : Number) (sending : Sends) (receiver : Number) (slot : Option Slot)
        → IsWellFormed m
        → IsWellFormed (with_arrival m (arrival_of m sender sending receiver slot)) }
{}

/// A law: the answer to a call returns what the call lent.
///
/// If the receiver answers at once, each thread then runs on what it ran on before the call.
pub fn answers_return_what_calls_lent()
    ensures { (m : Machine) (caller receiver id : Number) (tcb its : Thread) (words : List ℕ)
        → IsWellFormed m
        → IsThread m caller tcb
        → IsThread m receiver its
        → caller ≢ receiver
        → IsFree m id
        → (thread : Number)
        → context_under
        (object_of (answered (called_through m caller receiver (Some id)) receiver (Some caller) words) thread)
        ≡ context_under (object_of m thread) }
{}
