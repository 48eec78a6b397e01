use crate::rows::{check, says};
use smx_pdu::status::Status;
use std::test::*;

// SMPP 3.4, table 5-2 in section 5.1.3, a number that it lacks, a centre's own, and the greatest.
const STATUSES: [(u32, &str); 51] = [
    (0x00, "0x00 ESME_ROK"),
    (0x01, "0x01 ESME_RINVMSGLEN"),
    (0x02, "0x02 ESME_RINVCMDLEN"),
    (0x03, "0x03 ESME_RINVCMDID"),
    (0x04, "0x04 ESME_RINVBNDSTS"),
    (0x05, "0x05 ESME_RALYBND"),
    (0x06, "0x06 ESME_RINVPRTFLG"),
    (0x07, "0x07 ESME_RINVREGDLVFLG"),
    (0x08, "0x08 ESME_RSYSERR"),
    (0x0A, "0x0A ESME_RINVSRCADR"),
    (0x0B, "0x0B ESME_RINVDSTADR"),
    (0x0C, "0x0C ESME_RINVMSGID"),
    (0x0D, "0x0D ESME_RBINDFAIL"),
    (0x0E, "0x0E ESME_RINVPASWD"),
    (0x0F, "0x0F ESME_RINVSYSID"),
    (0x11, "0x11 ESME_RCANCELFAIL"),
    (0x13, "0x13 ESME_RREPLACEFAIL"),
    (0x14, "0x14 ESME_RMSGQFUL"),
    (0x15, "0x15 ESME_RINVSERTYP"),
    (0x33, "0x33 ESME_RINVNUMDESTS"),
    (0x34, "0x34 ESME_RINVDLNAME"),
    (0x40, "0x40 ESME_RINVDESTFLAG"),
    (0x42, "0x42 ESME_RINVSUBREP"),
    (0x43, "0x43 ESME_RINVESMCLASS"),
    (0x44, "0x44 ESME_RCNTSUBDL"),
    (0x45, "0x45 ESME_RSUBMITFAIL"),
    (0x48, "0x48 ESME_RINVSRCTON"),
    (0x49, "0x49 ESME_RINVSRCNPI"),
    (0x50, "0x50 ESME_RINVDSTTON"),
    (0x51, "0x51 ESME_RINVDSTNPI"),
    (0x53, "0x53 ESME_RINVSYSTYP"),
    (0x54, "0x54 ESME_RINVREPFLAG"),
    (0x55, "0x55 ESME_RINVNUMMSGS"),
    (0x58, "0x58 ESME_RTHROTTLED"),
    (0x61, "0x61 ESME_RINVSCHED"),
    (0x62, "0x62 ESME_RINVEXPIRY"),
    (0x63, "0x63 ESME_RINVDFTMSGID"),
    (0x64, "0x64 ESME_RX_T_APPN"),
    (0x65, "0x65 ESME_RX_P_APPN"),
    (0x66, "0x66 ESME_RX_R_APPN"),
    (0x67, "0x67 ESME_RQUERYFAIL"),
    (0xC0, "0xC0 ESME_RINVOPTPARSTREAM"),
    (0xC1, "0xC1 ESME_ROPTPARNOTALLWD"),
    (0xC2, "0xC2 ESME_RINVPARLEN"),
    (0xC3, "0xC3 ESME_RMISSINGOPTPARAM"),
    (0xC4, "0xC4 ESME_RINVOPTPARAMVAL"),
    (0xFE, "0xFE ESME_RDELIVERYFAILURE"),
    (0xFF, "0xFF ESME_RUNKNOWNERR"),
    (0x09, "0x09"),
    (0x0400, "0x400"),
    (0xFFFF_FFFF, "0xFFFFFFFF"),
];

// No clause names a number or a name. Since a name is that of the constant with the number, the
// constants have these numbers.
#[test]
fn statuses_of_the_standard(rt: HostRuntime) {
    for at in 0..STATUSES.len() {
        let (number, words) = STATUSES[at];
        let said = says(&rt, rt.alloc(), &Status(number), words);
        check(&rt, said, "statuses", at);
    }
}
