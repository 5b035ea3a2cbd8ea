//! Ids, procedure codes and limits by name (3GPP TS 36.413, 9.3).

/// The id of the IE MME UE S1AP ID (9.2.3.3).
pub const MME_UE_S1AP_ID: u16 = 0;

/// The id of the IE Cause (9.2.1.3).
pub const CAUSE: u16 = 2;

/// The id of the IE eNB UE S1AP ID (9.2.3.4).
pub const ENB_UE_S1AP_ID: u16 = 8;

/// The id of the IE E-RAB to be Setup List of bearers that are added (9.1.3.1).
pub const ERABS_TO_ADD: u16 = 16;

/// The id of the IE E-RAB to Be Setup List (9.1.4.1).
pub const ERABS_TO_SETUP: u16 = 24;

/// The id of the IE NAS-PDU (9.2.3.5).
pub const NAS_PDU: u16 = 26;

/// The id of the IE E-RAB Setup List of bearers that were added (9.1.3.2).
pub const ERABS_ADDED: u16 = 28;

/// The id of the IE UE Paging Identity (9.2.3.13).
pub const PAGING_ID: u16 = 43;

/// The id of the IE List of TAIs (9.1.6).
pub const TAIS: u16 = 46;

/// The id of the IE E-RAB Setup List (9.1.4.3).
pub const ERABS_DONE: u16 = 51;

/// The id of the IE UE Aggregate Maximum Bit Rate (9.2.1.20).
pub const BIT_RATES: u16 = 66;

/// The id of the IE TAI (9.2.3.16).
pub const TAI: u16 = 67;

/// The id of the IE Security Key (9.2.1.41).
pub const SECURITY_KEY: u16 = 73;

/// The id of the IE UE Radio Capability (9.2.1.27).
pub const RADIO_CAPABILITY: u16 = 74;

/// The id of the IE UE Identity Index Value (9.2.3.10).
pub const UE_INDEX: u16 = 80;

/// The id of the IE S-TMSI (9.2.3.6).
pub const STMSI: u16 = 96;

/// The id of the IE UE S1AP IDs (9.1.4.6).
pub const UE_IDS: u16 = 99;

/// The id of the IE E-UTRAN CGI (9.2.1.38).
pub const CGI: u16 = 100;

/// The id of the IE UE Security Capabilities (9.2.1.40).
pub const SEC_CAPS: u16 = 107;

/// The id of the IE CN Domain (9.2.3.22).
pub const CN_DOMAIN: u16 = 109;

/// The id of the IE RRC Establishment Cause (9.2.1.3a).
pub const RRC_CAUSE: u16 = 134;

/// The id of an item of an E-RAB to be Setup List of bearers that are added (9.1.3.1).
pub const ERAB_TO_ADD_ITEM: u16 = 17;

/// The id of an item of an E-RAB Setup List of bearers that were added (9.1.3.2).
pub const ERAB_ADDED_ITEM: u16 = 39;

/// The id of an item of a List of TAIs (9.1.6).
pub const TAI_ITEM: u16 = 47;

/// The id of an item of an E-RAB Setup List (9.1.4.3).
pub const ERAB_SETUP_ITEM: u16 = 50;

/// The id of an item of an E-RAB to Be Setup List (9.1.4.1).
pub const ERAB_TO_SETUP_ITEM: u16 = 52;

/// The procedure code of an E-RAB setup (9.3.6).
pub const ERAB_SETUP: u8 = 5;

/// The procedure code of paging (9.3.6).
pub const PAGING: u8 = 10;

/// The procedure code of a downlink NAS transport (9.3.6).
pub const DOWNLINK_NAS_TRANSPORT: u8 = 11;

/// The procedure code of an initial UE message (9.3.6).
pub const INITIAL_UE_MESSAGE: u8 = 12;

/// The procedure code of an uplink NAS transport (9.3.6).
pub const UPLINK_NAS_TRANSPORT: u8 = 13;

/// The procedure code of an initial context setup (9.3.6).
pub const INITIAL_CONTEXT_SETUP: u8 = 9;

/// The procedure code of a request to release a UE context (9.3.6).
pub const UE_CONTEXT_RELEASE_REQUEST: u8 = 18;

/// The procedure code of an indication of UE capabilities (9.3.6).
pub const UE_CAPABILITY_INFO_INDICATION: u8 = 22;

/// The procedure code of the release of a UE context (9.3.6).
pub const UE_CONTEXT_RELEASE: u8 = 23;

/// The greatest MME UE S1AP ID (9.2.3.3).
pub const MOST_MME_UE_S1AP_ID: u64 = 4_294_967_295;

/// The greatest eNB UE S1AP ID (9.2.3.4).
pub const MOST_ENB_UE_S1AP_ID: u64 = 16_777_215;

/// The greatest bit rate (9.2.1.19), in bit/s.
pub const MOST_BIT_RATE: u64 = 10_000_000_000;

/// The E-RAB ID (9.2.1.2) of a device's default bearer: the least EPS bearer identity that a network gives (3GPP TS 24.007,
/// 11.2.3.1.5).
pub const DEFAULT_ERAB: u8 = 5;

/// The E-RAB ID of the bearer of a device's second connection: the next one.
pub const SECOND_ERAB: u8 = 6;

/// How many root values an RRC Establishment Cause has (9.2.1.3a).
pub const RRC_CAUSE_ROOTS: u32 = 5;

/// How many octets a security key has (9.2.1.41).
pub const SECURITY_KEY_OCTETS: usize = 32;

/// How many octets a string with one length has at most, as a UE Radio Capability (ITU-T X.691, 11.9).
pub const MOST_OCTETS: usize = 16_383;

/// How many octets of a NAS-PDU are taken.
pub const MOST_OCTETS_OF_NAS: usize = 2048;
