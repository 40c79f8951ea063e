//! Why a request isn't served.

ghost use Rattle.std.specs.Prelude.{◌≡◌, IfOk};
ghost use Rattle.nbfx_values.specs.QuotasOf.{limits_of};
ghost use Rattle.soap_envelope.specs.Fitting as fitting;
ghost use Rattle.soap_envelope.specs.Making.{AreTexts};
ghost use Rattle.action_dispatch.specs.Refusals as spec;
ghost use Rattle.action_dispatch.specs.Refusals.{fault_of, report_of, unfit_fault};

use nbfx_values::{Copied, Doc, Items, Quotas, Txt};
use soap_envelope::{
    Addressing, Code, FaultReport, Names, SoapFault, Sub, fault_doc_with, names_fit,
};
use std::alloc::Global;
use unit_streams::Memory;

/// Why a request isn't served, or why its reply isn't sent. Each has a fault of SOAP 1.2 or
/// WS-Addressing 1.0.
#[derive(Debug, Drop)]
pub enum Refusal<'d> {
    /// The root isn't a SOAP 1.2 Envelope.
    NoEnvelope,
    /// An Action, To, MessageID or ReplyTo stands twice.
    RepeatedHeader,
    /// The document isn't an envelope for another reason.
    IllFormed,
    /// The blocks of these names must be understood, and aren't.
    NotUnderstood(Names<'d>),
    /// There is no Action.
    NoAction,
    /// The ReplyTo's Address is another one than the anonymous.
    OtherReplyAddress,
    /// The service has no such action.
    UnknownAction,
    /// The service refuses it, for this reason in English.
    ByService(Txt),
    /// The reply is larger than may be sent.
    Unfit,
}

impl<'d> Refusal<'d> {
    /// The refusal of a document without a view.
    pub(crate) fn of(fault: SoapFault) -> Refusal<'d>
        ensures { result ≡ spec.refusal_of fault }
    {
        match fault {
            SoapFault::NotAnEnvelope | SoapFault::VersionMismatch => Refusal::NoEnvelope,
            SoapFault::RepeatedHeader { .. } => Refusal::RepeatedHeader,
            _ => Refusal::IllFormed,
        }
    }

    /// Whether the names in its fault fit the quotas. If they don't, the fault doesn't.
    pub(crate) fn names_fit(&self, quotas: &Quotas) -> bool
        ensures { result ≡ fitting.names_fit (limits_of quotas.now) (spec.names_of self.now) }
    {
        match self {
            Refusal::NotUnderstood(names) => names_fit(quotas, names.as_slice()),
            _ => true,
        }
    }

    fn code(&self) -> Code
        ensures { result ≡ spec.code_of self.now }
    {
        match self {
            Refusal::NoEnvelope => Code::VersionMismatch,
            Refusal::NotUnderstood(_) => Code::MustUnderstand,
            Refusal::ByService(_) | Refusal::Unfit => Code::Receiver,
            _ => Code::Sender,
        }
    }

    fn sub(&self) -> Sub
        ensures { result ≡ spec.sub_of self.now }
    {
        match self {
            Refusal::RepeatedHeader => Sub::InvalidCardinality,
            Refusal::NoAction => Sub::HeaderRequired,
            Refusal::OtherReplyAddress => Sub::OnlyAnonymous,
            Refusal::UnknownAction => Sub::ActionNotSupported,
            _ => Sub::None,
        }
    }

    // The reason in English.
    fn reason(&self) -> &str
        ensures { result.now ≡ spec.reason_of self.now }
    {
        match self {
            Refusal::NoEnvelope => "The root is not a SOAP 1.2 envelope.",
            Refusal::RepeatedHeader => "An addressing header is repeated.",
            Refusal::IllFormed => "The message is not a well-formed envelope.",
            Refusal::NotUnderstood(_) => "A header block was not understood.",
            Refusal::NoAction => "The Action header is required.",
            Refusal::OtherReplyAddress => "Only the anonymous reply address is supported.",
            Refusal::UnknownAction => "The action is not supported.",
            Refusal::ByService(reason) => reason.as_str(),
            Refusal::Unfit => "The reply does not fit.",
        }
    }

    // The names of the blocks that weren't understood.
    fn into_names(self, alloc: Global) -> Names<'d>
        ensures { result ≡ spec.names_of self.entry }
    {
        match self {
            Refusal::NotUnderstood(names) => names,
            _ => Names::new(alloc),
        }
    }

    // What the fault reports.
    fn report(self, alloc: Global) -> Result<FaultReport<'d>, Memory>
        ensures { IfOk result (λ report. report ≡ report_of self.entry) }
    {
        let code = self.code();
        let sub = self.sub();
        let reason = Txt::of(alloc, self.reason())?;
        Ok(FaultReport {
            code,
            sub,
            reason,
            names: self.into_names(alloc),
        })
    }

    /// The fault, which relates to the request with this identifier.
    pub(crate) fn doc(
        self,
        alloc: Global,
        version: Addressing,
        relates: &Items,
    ) -> Result<Doc, Memory>
        requires { AreTexts relates.now }
        ensures { IfOk result (λ doc. doc ≡ fault_of version self.entry relates.now) }
    {
        self.doc_with(alloc, version, relates.copy()?)
    }

    // The same, whose texts aren't copied.
    pub(crate) fn doc_with(
        self,
        alloc: Global,
        version: Addressing,
        relates: Items,
    ) -> Result<Doc, Memory>
        requires { AreTexts relates }
        ensures { IfOk result (λ doc. doc ≡ fault_of version self.entry relates) }
    {
        let report = self.report(alloc)?;
        fault_doc_with(alloc, version, &report, relates)
    }
}

/// The fault that a server sends in place of an answer that is larger than it may send. Its code is
/// Receiver, and it is in the answer's version and relates to the same request. It fails without
/// memory for it.
pub fn unfit_doc(alloc: Global, version: Addressing, relates: Items) -> Result<Doc, Memory>
    requires { AreTexts relates }
    ensures { IfOk result (λ doc. doc ≡ unfit_fault version relates) }
{
    Refusal::Unfit.doc_with(alloc, version, relates)
}
