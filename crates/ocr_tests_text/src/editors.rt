// The names in the files of editors/, as bench/editors.py takes them from there.

/// Words of the language.
pub const WORDS: [&[u8]; 12] = [
    b"fn", b"let", b"if", b"else", b"while", b"print", b"return", b"paramc", b"paramv", b"depc",
    b"depv", b"code",
];

/// Names of calls.
pub const CALLS: [&[u8]; 16] = [
    b"ocrDbCreate",
    b"ocrDbRelease",
    b"ocrDbDestroy",
    b"ocrEventCreate",
    b"ocrEventCreateParams",
    b"ocrEventDestroy",
    b"ocrEventSatisfy",
    b"ocrEventSatisfySlot",
    b"ocrAddDependence",
    b"ocrEdtTemplateCreate",
    b"ocrEdtTemplateDestroy",
    b"ocrEdtCreate",
    b"ocrShutdown",
    b"ocrAbort",
    b"load",
    b"store",
];

/// Names of constants.
pub const CONSTANTS: [&[u8]; 22] = [
    b"NULL_GUID",
    b"UNINITIALIZED_GUID",
    b"EDT_PARAM_UNK",
    b"EDT_PARAM_DEF",
    b"EDT_PROP_NONE",
    b"EDT_PROP_FINISH",
    b"DB_PROP_NONE",
    b"DB_PROP_NO_ACQUIRE",
    b"EVT_PROP_NONE",
    b"EVT_PROP_TAKES_ARG",
    b"OCR_EVENT_LATCH_DECR_SLOT",
    b"OCR_EVENT_LATCH_INCR_SLOT",
    b"DB_MODE_NULL",
    b"DB_MODE_RO",
    b"DB_MODE_CONST",
    b"DB_MODE_RW",
    b"DB_MODE_EW",
    b"OCR_EVENT_ONCE_T",
    b"OCR_EVENT_IDEM_T",
    b"OCR_EVENT_STICKY_T",
    b"OCR_EVENT_LATCH_T",
    b"OCR_EVENT_CHANNEL_T",
];
