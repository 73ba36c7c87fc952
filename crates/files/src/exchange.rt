// The check of SET, SEND and RECV.
ghost use Rattle.std.specs.Prelude.{◌≡◌, ◌+◌, ◌^◌, ◌<◌, ◌≤◌, length};
ghost use Rattle.files.specs.Bodies.{kinds_in, declarations_in};
ghost use Rattle.files.specs.Expressions.{check_expression};
ghost use Rattle.files.specs.KindLists.{kinds_list, listed};
ghost use Rattle.files.specs.Statements.{check_values, check_set, check_send, check_receive, kinds_of};

use crate::body::Body;
use crate::operands::{exchange_fits, receive_fits};
use answers::fault::{FaultKind, Layer, LoadFault};
use heads::checked::{ask, fault};
use heads::declarations::Exchange;
use values::few::Few;
use values::kind::Kind;

// The kinds of the values of a SEND or RECV.
type Kinds = Few<Kind, 4>;

impl Body<'_> {
    // Some values one after the other: the place behind them, and their kinds.
    #[tactic(auto, using(crate::proofs::Valuing::values_none, crate::proofs::Valuing::values_stop, crate::proofs::Valuing::values_all))]
    fn check_values(&self, at: usize, left: u8, count: u8) -> Result<(usize, Kinds), LoadFault>
        requires { count ≤ 4 }
        ensures { listed result ≡ check_values count (λ p. check_expression left self.now.file.now p (kinds_in self.now)) at }
    {
        let mut end = at;
        let mut kinds = Few::new(Kind::Integer);
        // a value begins where the one before it ends, so there is only their number to go over
        for _i in 0..count {
            let (next, kind) = self.check_expression(end, left)?;
            kinds.push(kind);
            end = next;
        }
        Ok((end, kinds))
    }

    // The kinds of some variables.
    fn received_kinds(&self, list: &[u8]) -> Kinds
        requires { length list.now ≤ 4 }
        ensures { kinds_list result ≡ kinds_of (kinds_in self.now) list.now }
    {
        let mut kinds = Few::new(Kind::Integer);
        // one by one: no iterator collects into a short list
        for variable in list {
            let kind = self.scope.variables.kind(self.file, *variable);
            kinds.push(kind.unwrap_or(Kind::Integer));
        }
        kinds
    }

    // SET: the variable exists, and the value has its kind.
    pub(crate) fn check_set(
        &self,
        at: usize,
        left: u8,
        variable: u8,
    ) -> Result<(usize, u8), LoadFault>
        requires { at + 2 < 2 ^ 64 }
        ensures { result ≡ check_set (λ p. check_expression left self.now.file.now p (kinds_in self.now)) (kinds_in self.now) at variable }
    {
        let kind = self
            .scope
            .variables
            .kind(self.file, variable)
            .ok_or(fault(FaultKind::Operand, at, Layer::Statement))?;
        let (end, found) = self.check_expression(at + 2, left)?;
        ask(
            kind == found,
            FaultKind::PartKind,
            at + 2,
            Layer::Expression,
        )?;
        Ok((end, 1))
    }

    // SEND: operands within bounds, the values, and a declaration of their kinds.
    pub(crate) fn check_send(
        &self,
        at: usize,
        left: u8,
        channel: u8,
        message: u8,
        count: u8,
    ) -> Result<(usize, u8), LoadFault>
        requires { at + 4 < 2 ^ 64 }
        ensures { result ≡ check_send (λ p. check_expression left self.now.file.now p (kinds_in self.now)) (declarations_in self.now) at channel message count }
    {
        if !exchange_fits(channel, message, count) {
            return Err(fault(FaultKind::Operand, at, Layer::Statement));
        }
        let (end, kinds) = self.check_values(at + 4, left, count)?;
        let sent = Exchange {
            receives: false,
            channel,
            message,
            kinds: kinds.as_slice(),
        };
        let declared = self.scope.declarations.declare(self.file, &sent);
        ask(declared, FaultKind::Undeclared, at, Layer::Statement)?;
        Ok((end, 1))
    }

    // RECV: operands within bounds, and a declaration of the variables' kinds.
    #[tactic(auto, using(crate::proofs::Receiving::kinds_long))]
    pub(crate) fn check_receive(
        &self,
        at: usize,
        channel: u8,
        message: u8,
        count: u8,
        list: &[u8],
    ) -> Result<(usize, u8), LoadFault>
        requires place { at + 8 < 2 ^ 64 }
        requires four { length list.now ≡ 4 }
        ensures { result ≡ check_receive (kinds_in self.now) (declarations_in self.now) at channel message count list.now }
    {
        if !receive_fits(self.scope.variables.count, channel, message, count, list) {
            return Err(fault(FaultKind::Operand, at, Layer::Statement));
        }
        let kinds = self.received_kinds(&list[..count as usize]);
        let received = Exchange {
            receives: true,
            channel,
            message,
            kinds: kinds.as_slice(),
        };
        let declared = self.scope.declarations.declare(self.file, &received);
        ask(declared, FaultKind::Undeclared, at, Layer::Statement)?;
        Ok((at + 8, 1))
    }
}
